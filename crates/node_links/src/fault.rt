//! Why an exchange broke off: the link, or the shards.
use crate::port::ActFault;
use link_lines::LinkFault;
use thiserror::Error;

/// Why an exchange broke off: the link, or the shards.
#[derive(Clone, Copy, PartialEq, Eq, Debug, Error)]
pub enum DialFault {
    #[error("{0}")]
    Link(LinkFault),
    #[error("{0}")]
    Act(ActFault),
}

impl From<LinkFault> for DialFault {
    ghost use Rattle.std.specs.Prelude.{◌≡◌};
    ghost use Rattle.node_links.specs.declared.fault.DialFault.TheVariants as faults_are;

    ghost from_gives = { λ fault e. e ≡ faults_are.Link fault };

    fn from(fault: LinkFault) -> DialFault {
        DialFault::Link(fault)
    }
}

impl From<ActFault> for DialFault {
    ghost use Rattle.std.specs.Prelude.{◌≡◌};
    ghost use Rattle.node_links.specs.declared.fault.DialFault.TheVariants as faults_are;

    ghost from_gives = { λ fault e. e ≡ faults_are.Act fault };

    fn from(fault: ActFault) -> DialFault {
        DialFault::Act(fault)
    }
}
