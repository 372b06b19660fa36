//! A seat's part.
use crate::lane::Lane;
use shard_pool_settled::Receipt;
use std::alloc::AllocError;
use std::marker::Model;
use std::sync::ledger::Share;

/// A seat at one shard: its receipts there, and its share of that shard's count of seated calls.
#[derive(Drop)]
pub struct Part<L: Lane> {
    pub(crate) seat: u32,
    pub(crate) shard: u32,
    pub(crate) receipts: Vec<Receipt>,
    pub(crate) share: Share<L>,
}

impl<L: Lane> Model for Part<L> {
    ghost use Rattle.std.specs.Prelude.{◌≡◌};
    ghost use Rattle.shard_pool.specs.Hands.{Hand};
    ghost use Rattle.shard_pool.specs.HandCodes.{hand_code};

    ghost Value = { Hand };

    ghost coded = { hand_code };

    ghost view = { λ p. record { seat = p.seat; shard = p.shard; receipts = p.receipts.items; share = p.share.amount } };

    ghost invariant = { λ p. p.share.parts ≡ 1 };
}

impl<L: Lane> Part<L> {
    ghost use Rattle.std.specs.Prelude.{◌≡◌, []};
    ghost use Rattle.shard_pool.specs.Hands.{new_hand, without_receipts};

    /// A part with one of the ledger's parts, for a seat that made no call yet.
    pub fn new(seat: u32, shard: u32, receipts: Vec<Receipt>, share: Share<L>) -> Part<L>
        requires receipts { receipts.items ≡ [] }
        requires share { (share.parts ≡ 1) × (share.amount ≡ 0) }
        ensures { result ≡ new_hand seat shard }
    {
        Part {
            seat,
            shard,
            receipts,
            share,
        }
    }

    /// The receipts, the oldest first.
    pub fn receipts(&self) -> &[Receipt]
        ensures { result.now ≡ self.now.receipts }
    {
        self.receipts.as_slice()
    }

    /// The seat's number.
    pub fn seat(&self) -> u32
        ensures { result ≡ self.now.seat }
    {
        self.seat
    }

    /// The shard's number.
    pub fn shard(&self) -> u32
        ensures { result ≡ self.now.shard }
    {
        self.shard
    }

    /// Makes room for one more receipt.
    pub fn make_room(&mut self) -> Result<(), AllocError>
        ensures { self.new ≡ self.old }
    {
        self.receipts.reserve(1)
    }

    /// Drops the receipts that are numbered at most `upto`. The calls stay counted.
    pub fn forget(&mut self, upto: u64)
        ensures { self.new ≡ without_receipts self.old upto }
    {
        self.receipts.retain(|receipt| receipt.number > upto);
    }
}
