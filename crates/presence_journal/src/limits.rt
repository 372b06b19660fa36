//! Payloads and take limits.
use presence_base::{Json, JsonText};
use std::alloc::{AllocError, Global};
use std::marker::Model;

/// How deep the payload of a shout may be.
pub const MAX_PAYLOAD_DEPTH: u32 = 64;

/// How many items one take gives at most.
pub const MAX_TAKEN: u32 = 256;

/// What a shout sends: a value at most 64 deep whose numbers are whole ones of 64 bits, kept as
/// its compact text, which clones share.
#[derive(Debug)]
pub struct Payload {
    text: JsonText,
}

impl Drop for Payload {
    fn drop(self) {
        let Payload { text } = self;
        drop(text);
    }
}

impl Model for Payload {
    ghost use Rattle.std.specs.Prelude.{IsTrue};
    ghost use Rattle.serde_json.specs.Data.{Data};
    ghost use Rattle.presence_base.specs.JsonCode.{data_code};
    ghost use Rattle.presence_journal.specs.Limits.{is_payload};

    ghost Value = { Data };

    ghost coded = { data_code };

    ghost view = { λ p. p.text };

    ghost invariant = { λ p. IsTrue (is_payload p.text) };
}

impl Clone for Payload {
    ghost use Rattle.std.specs.Prelude.{◌≡◌};

    ghost is_clone = { λ p q. q ≡ p };

    fn clone(&self) -> Result<Payload, AllocError> {
        let text = self.text.clone()?;
        Ok(Payload { text })
    }
}

impl Payload {
    ghost use Rattle.std.specs.Prelude.{◌≡◌, IfOk, IsTrue};
    ghost use Rattle.serde_json.specs.View.{view};
    ghost use Rattle.serde_json.specs.Written.{compact_text};
    ghost use Rattle.presence_journal.specs.Limits.{is_payload};

    pub fn new(alloc: Global, json: &Json) -> Result<Payload, AllocError>
        requires { IsTrue (is_payload json.now) }
        ensures { IfOk result (λ p. p ≡ json.now) }
    {
        let text = JsonText::new(alloc, json.as_value())?;
        Ok(Payload { text })
    }

    /// The compact text of the value, written when the payload was made.
    pub fn text(&self) -> &str
        ensures text { result.now ≡ compact_text self.now }
        ensures limits { IsTrue (is_payload self.now) }
    {
        self.text.as_str()
    }

    /// The value, read from its text.
    pub fn to_json(&self, alloc: Global) -> Result<Json, AllocError>
        ensures value { IfOk result (λ j. j ≡ self.now) }
        ensures limits { IsTrue (is_payload self.now) }
    {
        let value = self.text.to_value(alloc)?;
        Ok(Json::new(value))
    }
}

/// How many items a take may give: 1 to 256.
#[derive(Debug, Drop)]
pub struct TakeLimit {
    items: u32,
}

impl Model for TakeLimit {
    ghost use Rattle.std.specs.Prelude.{ℕ, IsTrue};
    ghost use Rattle.presence_journal.specs.Limits.{is_take_limit};

    ghost Value = { ℕ };

    ghost view = { λ m. m.items };

    ghost invariant = { λ m. IsTrue (is_take_limit m.items) };
}

impl Clone for TakeLimit {
    ghost use Rattle.std.specs.Prelude.{◌≡◌};

    ghost is_clone = { λ m n. n ≡ m };

    fn clone(&self) -> Result<TakeLimit, AllocError> {
        Ok(TakeLimit { items: self.items })
    }
}

impl TakeLimit {
    ghost use Rattle.std.specs.Prelude.{◌≡◌, IsTrue};
    ghost use Rattle.presence_journal.specs.Limits.{is_take_limit};

    pub fn new(items: u32) -> TakeLimit
        requires { IsTrue (is_take_limit items) }
        ensures { result ≡ items }
    {
        TakeLimit { items }
    }

    pub fn get(&self) -> u32
        ensures items { result ≡ self.now }
        ensures limits { IsTrue (is_take_limit self.now) }
    {
        self.items
    }
}
