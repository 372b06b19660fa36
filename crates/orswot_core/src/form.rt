//! The two forms of a told value.

/// How a told value is put together. What it covers and which rows it has is the same in both.
#[derive(Clone, Copy, PartialEq, Eq, Debug)]
pub enum Form {
    /// A range for each replica, and dots beside them.
    One,
    /// Ranges alone, any number for each replica, in order.
    Two,
}
