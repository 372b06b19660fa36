//! When a turn is taken.
use tokens::Signing;

/// When a turn is taken.
#[derive(Clone, Copy)]
pub struct Moment<'a> {
    /// In milliseconds, by a clock that only goes forward.
    pub milliseconds: u64,
    /// How clients sign in then, where they have to.
    pub signing: Option<Signing<'a>>,
}
