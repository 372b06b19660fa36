//! The names of peers.
ghost use Rattle.std.specs.Prelude.{◌≡◌, false, IfErr, IsTrue, OnOk};
ghost use Rattle.presence_options.specs.Given.{HasCause, IsFor};
ghost use Rattle.presence_options.specs.Limits.{is_peer_name};

use crate::fault::{UsageCause, UsageFault};
use crate::options::PeerOption;
use crate::values::usage_of;
use presence_base::NodeName;
use std::alloc::Global;

// Whether one of these peers has this name.
fn is_peer_name(name: &NodeName, peers: &[PeerOption]) -> bool
    ensures { result ≡ is_peer_name name.now peers.now }
{
    for peer in peers {
        if peer.name.as_str() == name.as_str() {
            return true;
        }
    }
    false
}

// What is wrong with a peer that has the name of the node itself.
fn own_name(alloc: Global, own: &NodeName) -> UsageFault
    ensures { HasCause UsageCause.PeerName result }
{
    let own = own.as_str();
    usage_of(
        UsageCause::PeerName,
        format!(in alloc;
            "--peer {own}=..: this is the node's own name; each node has a name of its own, by --name"
        ),
    )
}

/// Whether no peer has the name of the node itself, or what is wrong with one that has.
pub(crate) fn names_checked(
    alloc: Global,
    own: &NodeName,
    peers: &[PeerOption],
) -> Result<(), UsageFault>
    ensures others { OnOk result (is_peer_name own.now peers.now ≡ false) }
    ensures cause { IfErr result (IsFor UsageCause.PeerName (IsTrue (is_peer_name own.now peers.now))) }
{
    if is_peer_name(own, peers) {
        return Err(own_name(alloc, own));
    }
    Ok(())
}
