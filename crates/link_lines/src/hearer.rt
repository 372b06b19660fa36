//! Who reads a line, and a told value with its form.

use orswot_core::{Form, Told};

/// What the hearer of a line knows beforehand: how many shards it has, and in which form it is told, which is known from the
/// other end's hello on.
#[derive(Clone, Copy, Debug)]
pub struct Hearer {
    pub shards: u32,
    pub form: Option<Form>,
}

/// What is told, and the form in which a line has it.
#[derive(Drop)]
pub struct Telling {
    pub form: Form,
    pub told: Told,
}
