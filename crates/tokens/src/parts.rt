//! The parts of a token.
ghost use Rattle.std.specs.Prelude.{◌≡◌, option_map};
ghost use Rattle.tokens.specs.Parts.{cut_in, parts_in};

/// The parts of a token, as they are encoded.
#[derive(Clone, Copy)]
pub(crate) struct Parts<'a> {
    pub head: &'a [u8],
    pub claims: &'a [u8],
    pub signature: &'a [u8],
}

// What stands before the first dot and behind it.
fn cut(text: &[u8]) -> Option<(&[u8], &[u8])>
    ensures { option_map (λ p. (p.0.now, p.1.now)) result ≡ cut_in text.now }
{
    for i in 0..text.len() {
        if text[i] == b'.' {
            return Some((&text[..i], &text[i + 1..]));
        }
    }
    None
}

/// The parts of a token, where it has two dots.
pub(crate) fn parts_of(text: &[u8]) -> Option<Parts<'_>>
    ensures { option_map (λ p. record { head = p.head.now; claims = p.claims.now; signature = p.signature.now }) result ≡ parts_in text.now }
{
    let (head, rest) = cut(text)?;
    let (claims, signature) = cut(rest)?;
    Some(Parts {
        head,
        claims,
        signature,
    })
}
