//! A seat: the receipts of a caller.
ghost use Rattle.std.specs.Prelude.{◌≡◌, IfOk};

use crate::lanes::Lanes;
use crate::part::Part;
use shard_pool_settled::Receipt;
use std::alloc::{AllocError, Global};
use std::marker::Model;

/// A caller's token: its number, and its part at each shard.
#[derive(Drop)]
pub struct Seat<L: Lanes> {
    pub(crate) number: u32,
    pub(crate) first: Part<L::First>,
    pub(crate) second: Part<L::Second>,
    pub(crate) third: Part<L::Third>,
    pub(crate) fourth: Part<L::Fourth>,
}

impl<L: Lanes> Model for Seat<L> {
    ghost use Rattle.std.specs.Prelude.{◌≡◌};
    ghost use Rattle.shard_pool.specs.Seats.{Hands, IsSeated};
    ghost use Rattle.shard_pool.specs.Codes.{hands_code};

    ghost Value = { Hands };

    ghost coded = { hands_code };

    ghost view = { λ s. record { number = s.number; first = s.first; second = s.second; third = s.third; fourth = s.fourth } };

    ghost invariant = { λ s. IsSeated (record { number = s.number; first = s.first; second = s.second; third = s.third; fourth = s.fourth }) };
}

// A copy of these receipts.
fn copied(alloc: Global, receipts: &[Receipt]) -> Result<Vec<Receipt>, AllocError>
    ensures { IfOk result (λ v. v.items ≡ receipts.now) }
{
    let copies = receipts.to_vec(alloc)?;
    Ok(copies)
}

impl<L: Lanes> Seat<L> {
    ghost use Rattle.std.specs.Prelude.{◌≡◌, ◌<◌, IfOk};
    ghost use Rattle.shard_pool.specs.Hands.{new_hand};
    ghost use Rattle.shard_pool.specs.Seats.{new_seat, without_receipts_at};
    ghost use Rattle.shard_pool.specs.Settling.{receipts_of};

    // A seat that made no call yet.
    pub(crate) fn new(
        number: u32,
        first: Part<L::First>,
        second: Part<L::Second>,
        third: Part<L::Third>,
        fourth: Part<L::Fourth>,
    ) -> Seat<L>
        requires { (first ≡ new_hand number 0) × (second ≡ new_hand number 1)
            × (third ≡ new_hand number 2) × (fourth ≡ new_hand number 3) }
        ensures { result ≡ new_seat number }
    {
        Seat {
            number,
            first,
            second,
            third,
            fourth,
        }
    }

    /// The seat's number: the seats of a pool are numbered from 0.
    pub fn number(&self) -> u32
        ensures { result ≡ self.now.number }
    {
        self.number
    }

    /// The receipts, shard by shard, the oldest of each first.
    pub fn receipts(&self, alloc: Global) -> Result<Vec<Receipt>, AllocError>
        ensures { IfOk result (λ v. v.items ≡ receipts_of self.now) }
    {
        let mut all = copied(alloc, self.first.receipts())?;
        all.append(&mut copied(alloc, self.second.receipts())?)?;
        all.append(&mut copied(alloc, self.third.receipts())?)?;
        all.append(&mut copied(alloc, self.fourth.receipts())?)?;
        Ok(all)
    }

    /// Drops the receipts at a shard that are numbered at most `upto`. The calls stay counted.
    pub fn forget(&mut self, shard: u32, upto: u64)
        requires { shard < 4 }
        ensures { self.new ≡ without_receipts_at self.old shard upto }
    {
        match shard {
            0 => self.first.forget(upto),
            1 => self.second.forget(upto),
            2 => self.third.forget(upto),
            _ => self.fourth.forget(upto),
        }
    }
}
