//! Where links may come from.
ghost use Rattle.std.specs.Prelude.{◌≡◌};
ghost use Rattle.link_rules.specs.Admitting.{Admits, is_one_of, is_same};

use std::net::IpAddr;

// Whether two addresses are one.
fn is_same(one: &IpAddr, other: &IpAddr) -> bool
    ensures { result ≡ is_same one.now other.now }
{
    match (one, other) {
        (IpAddr::V4(one), IpAddr::V4(other)) => one.octets() == other.octets(),
        (IpAddr::V6(one), IpAddr::V6(other)) => one.segments() == other.segments(),
        (IpAddr::V4(_), IpAddr::V6(_)) | (IpAddr::V6(_), IpAddr::V4(_)) => false,
    }
}

// Whether one of these is the address.
fn is_one_of(all: &[IpAddr], address: &IpAddr) -> bool
    ensures { result ≡ is_one_of all.now address.now }
{
    for one in all {
        if is_same(one, address) {
            return true;
        }
    }
    false
}

/// Whether a link may come from this host: one of these, or any where there are none. One that is mapped into IPv6 is the host
/// that is mapped.
pub fn is_admitted(from: &[IpAddr], host: &IpAddr) -> bool
    ensures { Admits from.now host.now result }
{
    let counts = host.to_canonical();
    from.is_empty() || is_one_of(from, &counts)
}
