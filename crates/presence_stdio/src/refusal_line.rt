//! Numbers of refusals.
ghost use Rattle.std.specs.Prelude.{◌≡◌, IfOk, string_bytes, codes};
ghost use Rattle.presence_stdio.specs.RefusalTold.{fault_number, told_line};

use phx_message::MessageFault;
use std::alloc::{AllocError, Global};

/// The number of a refusal, as it is told.
pub fn number_of(fault: MessageFault) -> u8
    ensures { result ≡ fault_number fault }
{
    match fault {
        MessageFault::TooLong => 1,
        MessageFault::NotJson => 2,
        MessageFault::NotFive => 3,
        MessageFault::BadRef => 4,
        MessageFault::BadTopic => 5,
        MessageFault::BadEvent => 6,
        MessageFault::TooDeep => 7,
        MessageFault::Fraction => 8,
        MessageFault::OutOfMemory => 9,
    }
}

/// A refusal as it is told.
pub fn refusal_line(alloc: Global, n: u64, number: u8) -> Result<String, AllocError>
    ensures { IfOk result (λ s. string_bytes s ≡ told_line n (codes "M") number) }
{
    format!(in alloc; "line {n}: M{number}")
}
