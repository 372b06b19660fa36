//! Which ledger and node.
use std::marker::Brand;
use std::sync::ledger::Ledger;

/// The ledger of one shard, which counts the calls of its seats.
pub trait Lane: Ledger {
    ghost use Rattle.std.specs.Prelude.{List, ℕ};
    ghost use Rattle.presence_journal.specs.History.{History};

    /// The name of the shard's node.
    ghost node: { List ℕ };

    /// What the shard begins with. It tells the shard from others of its node.
    ghost begins: { History → Type 0 };
}

impl Lane for Brand {
    ghost use Rattle.std.specs.Prelude.{[]};

    ghost node = { [] };

    ghost begins = { λ h. Unit {0} };
}
