//! The ledgers of a pool's shards, as one.
ghost use Rattle.std.specs.Prelude.{ℕ};
ghost use Rattle.presence_journal.specs.History.{History};
ghost use Rattle.shard_pool.specs.Lanes.{begins_at};

use crate::lane::Lane;
use std::marker::PhantomData;

/// The lanes of a pool: one for each shard that there can be.
pub trait Lanes {
    type First: Lane;

    type Second: Lane;

    type Third: Lane;

    type Fourth: Lane;

    /// What the shard of a number begins with.
    ghost begins: { ℕ → History → Type 0 };

    ghost first: { (h : History) → Self.First.begins h → begins 0 h };

    ghost second: { (h : History) → Self.Second.begins h → begins 1 h };

    ghost third: { (h : History) → Self.Third.begins h → begins 2 h };

    ghost fourth: { (h : History) → Self.Fourth.begins h → begins 3 h };
}

/// These four lanes.
pub struct Four<A: Lane, B: Lane, C: Lane, D: Lane> {
    first: PhantomData<A>,
    second: PhantomData<B>,
    third: PhantomData<C>,
    fourth: PhantomData<D>,
}

impl<A: Lane, B: Lane, C: Lane, D: Lane> Lanes for Four<A, B, C, D> {
    type First = A;

    type Second = B;

    type Third = C;

    type Fourth = D;

    ghost begins = { begins_at A.begins B.begins C.begins D.begins };

    ghost first = { λ h b. b };

    ghost second = { λ h b. b };

    ghost third = { λ h b. b };

    ghost fourth = { λ h b. b };
}
