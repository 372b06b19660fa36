//! How clients sign in.
use crate::claims::Claims;
use crate::fault::TokenFault;
use crate::judging::verify;
use crate::making::{Wanted, is_wanted, made};
use hmac_keys::Keys;
use std::alloc::Global;
use std::sync::Arc;

/// Under which keys clients sign in, and at which second since 1970.
#[derive(Clone, Copy)]
pub struct Signing<'a> {
    pub keys: &'a Arc<Keys, Global>,
    pub second: u64,
}

impl<'a> Signing<'a> {
    ghost use Rattle.std.specs.Prelude.{◌≡◌, IfErr, IfOk, string_bytes};
    ghost use Rattle.std.specs.Arc.{arc_value};
    ghost use Rattle.tokens.specs.Answers.{Fails, Gives};
    ghost use Rattle.tokens.specs.Making.{IsTakenFor, made_text, signed, wanted_in};
    ghost use Rattle.tokens.specs.Signing.{judged_at};
    ghost use Rattle.tokens.specs.Views.{granted_by};

    /// What a token grants now, or the first thing that is wrong with it.
    pub fn judge(self, alloc: Global, token: &[u8]) -> Result<Claims, TokenFault>
        ensures { Gives granted_by result (judged_at self.entry token.now) }
    {
        verify(alloc, self.keys.as_slice(), self.second, token)
    }

    /// A token that grants this, signed with the first of the keys. It is judged before it is given away: a server that has this
    /// key takes it now, for what is wanted.
    pub fn sign(self, alloc: Global, wanted: Wanted<'_>) -> Result<String, TokenFault>
        ensures made { IfOk result (λ token. string_bytes token ≡ made_text (arc_value self.entry.keys.now) (wanted_in wanted.entry)) }
        ensures taken { IfOk result (λ token. IsTakenFor self.entry (wanted_in wanted.entry) (string_bytes token)) }
        ensures refused { IfErr result (λ fault. Fails fault (signed self.entry (wanted_in wanted.entry))) }
    {
        let Ok(token) = made(alloc, self.keys, wanted) else {
            return Err(TokenFault::OutOfMemory);
        };
        let claims = self.judge(alloc, token.as_bytes())?;
        if is_wanted(&claims, wanted) {
            Ok(token)
        } else {
            Err(TokenFault::BadClaims)
        }
    }
}
