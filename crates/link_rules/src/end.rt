//! Why a link went.
ghost use Rattle.std.specs.Prelude.{◌≡◌};
ghost use Rattle.link_rules.specs.Words.{leaves_stream as leaves};

use link_lines::LinkFault;
use node_links::DialFault;

/// Why a link went, or can't be had.
#[derive(Clone, Copy, PartialEq, Eq, Debug)]
pub enum LinkEnd {
    /// An exchange broke off.
    Fault(DialFault),
    /// The other end closed it.
    Closed,
    /// This node's own incarnation is gone at the other end, and it can't go on under the next one.
    GivenUp,
    /// It is gone there, and this node goes on later, since it did so often of late or a shard knows of that incarnation.
    GoesOnLater,
    /// This node has gone on under a higher incarnation since the link was begun.
    Reborn,
    /// The other end has this node's own name and incarnation.
    OwnReplica,
    /// The other end has this node's own name.
    OwnName,
    /// The other end has another name than the command line says.
    OtherName,
    /// It came from a node that no `--peer` names.
    NotAPeer,
    /// It came from an address that no `--link-from` has.
    OtherAddress,
    /// It shows none of this node's keys of links.
    NoKey,
    /// It shows none of them under the name that the command line says.
    NoNamedKey,
    /// The other end closed it and had shown no key.
    Unshown,
    /// The other end wants a key shown, and this node has none of links.
    KeyWanted,
    /// The hello names another node than the one that showed a key.
    OtherHello,
    /// The system gives no random bytes for a nonce.
    NoNonce,
    /// A newer link of the same node came in.
    Replaced,
    /// Nobody answers there.
    NotReached,
    /// No address is found for its host.
    HostNotFound,
    /// No further file can be opened, and so no socket.
    NoFile,
    /// There are as many links as a node takes.
    TooMany,
    /// This node stops.
    Stopped,
}

impl LinkEnd {
    /// Whether another line may go out over the link all the same: the stream stands between two lines, as far as is known.
    pub fn leaves_stream(self) -> bool
        ensures { result ≡ leaves self }
    {
        match self {
            LinkEnd::Fault(DialFault::Act(_)) | LinkEnd::GivenUp | LinkEnd::GoesOnLater => true,
            LinkEnd::Fault(DialFault::Link(fault)) => matches!(
                fault,
                LinkFault::NotJson
                    | LinkFault::BadLine
                    | LinkFault::BadTold(_)
                    | LinkFault::OtherShards
                    | LinkFault::OutOfMemory
            ),
            _ => false,
        }
    }
}
