//! What addresses of clients say.
ghost use Rattle.std.specs.Prelude.{◌≡◌, ◌↔◌, IsTrue};
ghost use Rattle.std.specs.Net.Addr.{ipv6_segments};
ghost use Rattle.serve_handshakes.specs.Addresses.{IsCountedBy, IsNear, IsNearBy, network};

use std::net::{IpAddr, Ipv6Addr};

// Whether an address that maps no other is of this machine or of a private network.
fn is_near_as_it_is(address: &IpAddr) -> bool
    ensures { IsTrue result ↔ IsNear address.now }
{
    match address {
        IpAddr::V4(address) => address.is_loopback() || address.is_private(),
        IpAddr::V6(address) => address.is_loopback() || address.is_unique_local(),
    }
}

/// Whether an address is of this machine or of a private network, so that a proxy may stand there for many clients.
pub fn is_near(address: &IpAddr) -> bool
    ensures { IsNearBy address.now result }
{
    is_near_as_it_is(&address.to_canonical())
}

// The network of an address of IPv6: its first 64 bits, of which one household has all.
fn network_of(address: &Ipv6Addr) -> Ipv6Addr
    ensures { ipv6_segments result ≡ network (ipv6_segments address.now) }
{
    let [a, b, c, d, _, _, _, _] = address.segments();
    Ipv6Addr::new(a, b, c, d, 0, 0, 0, 0)
}

/// What the clients of an address are counted by: an address of IPv4, also where one of IPv6 maps it, and else its network.
pub fn counted_by(address: &IpAddr) -> IpAddr
    ensures { IsCountedBy address.now result }
{
    match address.to_canonical() {
        IpAddr::V4(address) => IpAddr::V4(address),
        IpAddr::V6(address) => IpAddr::V6(network_of(&address)),
    }
}
