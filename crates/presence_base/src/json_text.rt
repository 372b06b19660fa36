//! A JSON value as its compact text.
use serde_json::Value;
use std::alloc::{AllocError, Global};
use std::marker::Model;
use std::sync::ArcStr;

/// A JSON value without floats that is kept as its compact text, which clones share. Contracts see the value.
#[derive(Debug)]
pub struct JsonText {
    text: ArcStr,
}

impl Drop for JsonText {
    fn drop(self) {
        let JsonText { text } = self;
        drop(text);
    }
}

impl Model for JsonText {
    ghost use Rattle.std.specs.Arc.{arc_str_bytes};
    ghost use Rattle.serde_json.specs.Data.{Data};
    ghost use Rattle.presence_base.specs.JsonCode.{data_code};
    ghost use Rattle.presence_base.specs.JsonTexts.{value_in, IsCompact};

    ghost Value = { Data };

    ghost coded = { data_code };

    ghost view = { λ t. value_in (arc_str_bytes t.text) };

    ghost invariant = { λ t. IsCompact (arc_str_bytes t.text) };
}

impl Clone for JsonText {
    ghost use Rattle.std.specs.Prelude.{◌≡◌};

    ghost is_clone = { λ s t. t ≡ s };

    fn clone(&self) -> Result<JsonText, AllocError> {
        let text = self.text.clone()?;
        Ok(JsonText { text })
    }
}

impl JsonText {
    ghost use Rattle.std.specs.Prelude.{◌≡◌, ◌≤◌, false, IfOk};
    ghost use Rattle.serde_json.specs.Data.{depth};
    ghost use Rattle.serde_json.specs.Read.{max_depth};
    ghost use Rattle.serde_json.specs.View.{view};
    ghost use Rattle.serde_json.specs.Written.{compact_text, has_float};

    pub fn new(alloc: Global, value: &Value) -> Result<JsonText, AllocError>
        requires floats { has_float (view value.now) ≡ false }
        requires depth { depth (view value.now) ≤ max_depth }
        ensures { IfOk result (λ t. t ≡ view value.now) }
    {
        let written = value.to_string(alloc)?;
        let text = ArcStr::from_str(alloc, written.as_str())?;
        Ok(JsonText { text })
    }

    pub fn as_str(&self) -> &str
        ensures { result.now ≡ compact_text self.now }
    {
        self.text.as_str()
    }

    /// The value, read from its text.
    pub fn to_value(&self, alloc: Global) -> Result<Value, AllocError>
        ensures { IfOk result (λ v. view v ≡ self.now) }
    {
        match Value::from_str(alloc, self.text.as_str()) {
            Ok(value) => Ok(value),
            Err(_) => Err(AllocError),
        }
    }
}
