//! How many rows, and how many bytes.
ghost use Rattle.std.specs.Prelude.{◌≡◌, ◌↔◌, IsTrue};
ghost use Rattle.serve_rations.specs.Amounts.{nothing, together, without as without_of, has_room as has_room_in};

/// So many rows, and the bytes of their text.
#[derive(Clone, Copy, PartialEq, Eq, Debug)]
pub struct Amount {
    pub rows: u64,
    pub bytes: u64,
}

impl Amount {
    pub const NOTHING: Amount = Amount { rows: 0, bytes: 0 };

    /// Whether it is no row and no byte.
    pub fn is_nothing(self) -> bool
        ensures { IsTrue result ↔ (self ≡ nothing) }
    {
        self.rows == 0 && self.bytes == 0
    }

    /// Both together. What passes 64 bits is the most of them.
    pub fn plus(self, other: Amount) -> Amount
        ensures { result ≡ together self other }
    {
        Amount {
            rows: self.rows.saturating_add(other.rows),
            bytes: self.bytes.saturating_add(other.bytes),
        }
    }

    /// What is left of it without the other, which is nothing where the other is more.
    pub fn without(self, other: Amount) -> Amount
        ensures { result ≡ without_of self other }
    {
        Amount {
            rows: self.rows.saturating_sub(other.rows),
            bytes: self.bytes.saturating_sub(other.bytes),
        }
    }

    /// Whether a budget of this has room for so much more where so much is taken.
    pub fn has_room(self, taken: Amount, more: Amount) -> bool
        ensures { result ≡ has_room_in self taken more }
    {
        more.rows <= self.rows.saturating_sub(taken.rows)
            && more.bytes <= self.bytes.saturating_sub(taken.bytes)
    }
}
