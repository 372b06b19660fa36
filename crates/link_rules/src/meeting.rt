//! Who may be there.
ghost use Rattle.std.specs.Prelude.{◌≡◌};
ghost use Rattle.presence_base.specs.Order.{same_text, same_replica};
ghost use Rattle.link_rules.specs.Words.{met, met_name, is_among, is_welcome as may_link};

use crate::end::LinkEnd;
use presence_base::{NodeName, Replica};

fn is_same(a: &NodeName, b: &NodeName) -> bool
    ensures { result ≡ same_text a.now b.now }
{
    a.cmp(b).is_eq()
}

fn is_itself(own: &Replica, other: &Replica) -> bool
    ensures { result ≡ same_replica other.now own.now }
{
    other.cmp(own).is_eq()
}

fn named(wanted: Option<NodeName>, other: &NodeName) -> Result<(), LinkEnd>
    ensures { result ≡ met_name wanted other.now }
{
    match wanted {
        Some(wanted) => {
            if is_same(other, &wanted) {
                Ok(())
            } else {
                Err(LinkEnd::OtherName)
            }
        }
        None => Ok(()),
    }
}

/// Whether a link may go on with who said hello: it is not this node, nor one of its name, and the one that is wanted, if
/// one is.
pub fn greeted(own: &Replica, wanted: Option<NodeName>, other: &Replica) -> Result<(), LinkEnd>
    ensures { result ≡ met own.now wanted other.now }
{
    if is_itself(own, other) {
        return Err(LinkEnd::OwnReplica);
    }
    if is_same(&other.name, &own.name) {
        return Err(LinkEnd::OwnName);
    }
    named(wanted, &other.name)
}

fn is_named(peers: &[NodeName], name: &NodeName) -> bool
    ensures { result ≡ is_among peers.now name.now }
{
    peers.iter().any(|peer| is_same(peer, name))
}

/// Whether a link may come in from a node of this name: one that a `--peer` names, where any node is named.
pub fn is_welcome(peers: &[NodeName], name: &NodeName) -> bool
    ensures { result ≡ may_link peers.now name.now }
{
    peers.is_empty() || is_named(peers, name)
}
