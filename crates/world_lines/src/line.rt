//! What a line says.
use node_world::Event;
use orswot_core::Form;
use presence_base::{NodeName, Replica, Topic};

/// What a line says.
#[derive(Drop)]
pub(crate) enum Line {
    Names(Vec<NodeName>),
    Happens(Event),
    List { node: usize, topic: Topic },
    Told,
    /// In which form nodes tell from now on.
    Form(Form),
    CaughtUp { node: usize, replica: Replica },
}
