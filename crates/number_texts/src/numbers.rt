//! The numbers that are marked.
ghost use Rattle.std.specs.Prelude.{◌≡◌, ◌<◌, ◌==◌, IsTrue, length, slice_index, true, false};
ghost use Rattle.serde_json.specs.Read.{number_of, number_from};
ghost use Rattle.number_texts.specs.Numbers.{is_marked_number as is_marked_text, is_whole as is_whole_in};

use fast_float::Numeral;
use json::is_number;

fn has_minus(bytes: &[u8]) -> bool
    ensures value { result ≡ (slice_index bytes.now 0 == 45) }
    ensures len { IsTrue result → 0 < length bytes.now }
{
    !bytes.is_empty() && bytes[0] == b'-'
}

// Whether a numeral without a sign is a whole number of 64 bits.
fn is_unsigned(numeral: &Numeral<'_>) -> bool
    ensures { result ≡ is_whole_in (number_from false numeral.now) }
{
    numeral.to_u64().is_some()
}

// Whether a numeral behind a minus is one. `-0` isn't.
fn is_negative(numeral: &Numeral<'_>) -> bool
    ensures { result ≡ is_whole_in (number_from true numeral.now) }
{
    match numeral.to_i64(true) {
        Some(n) => n < 0,
        None => false,
    }
}

// Whether the number that a text writes is a whole number of 64 bits.
fn is_whole(text: &str) -> bool
    ensures { result ≡ is_whole_in (number_of text.now) }
{
    let bytes = text.as_bytes();
    if has_minus(bytes) {
        is_negative(&Numeral::scan(&bytes[1..]))
    } else {
        is_unsigned(&Numeral::scan(bytes))
    }
}

/// Whether a text is a number of JSON that is no whole number of 64 bits.
#[tactic(auto, using(crate::proofs::Numerals::numbers), unfolding(crate::specs::Numbers::is_marked_number))]
pub fn is_marked_number(text: &str) -> bool
    ensures { result ≡ is_marked_text text.now }
{
    is_number(text) && !is_whole(text)
}
