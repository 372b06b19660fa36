// Differences and shouts with the texts of their payloads, made once for all who are told of them.
ghost use Rattle.std.specs.Prelude.{◌≡◌, IfOk, string_bytes};
ghost use Rattle.serde_json.specs.Written.{compact_text};
ghost use Rattle.presence_metas.specs.Values.{diff_of};

use crate::limits::Payload;
use crate::rows::RowDiff;
use presence_metas::{are_in_key_order, diff_text, diff_value};
use std::alloc::{AllocError, Global};
use std::fmt::{self, Debug, Formatter, Write};
use std::marker::Model;
use std::sync::Arc;

// A difference with the text of the payload that tells it.
#[derive(Drop)]
struct WrittenDiff {
    diff: RowDiff,
    text: String,
    ghost exact: { string_bytes text ≡ compact_text (diff_of diff.joins diff.leaves) },
}

/// How the present rows of a topic changed, with the text that tells it. Those who share it share the text.
pub struct SharedDiff {
    written: Arc<WrittenDiff, Global>,
}

impl Drop for SharedDiff {
    fn drop(self) {
        let SharedDiff { written } = self;
        drop(written);
    }
}

impl Model for SharedDiff {
    ghost use Rattle.std.specs.Arc.{arc_value};
    ghost use Rattle.presence_journal.specs.contracts.rows.RowDiff as one_diff;
    ghost use Rattle.presence_journal.specs.declared.rows.RowDiff.{RowDiff};

    ghost Value = { RowDiff };

    ghost coded = { one_diff.the_row.coded };

    ghost view = { λ s. (arc_value s.written).diff };
}

impl Debug for SharedDiff {
    fn fmt<W: Write>(&self, f: &mut Formatter<W>) -> fmt::Result {
        self.diff().fmt(f)
    }
}

// The text of the payload that tells a difference.
fn write_diff(alloc: Global, diff: &RowDiff) -> Result<String, AllocError>
    ensures { IfOk result (λ s. string_bytes s ≡ compact_text (diff_of diff.now.joins diff.now.leaves)) }
{
    let joins = diff.joins.as_slice();
    let leaves = diff.leaves.as_slice();
    if are_in_key_order(joins) && are_in_key_order(leaves) {
        return diff_text(alloc, joins, leaves);
    }
    let value = diff_value(alloc, joins, leaves)?;
    value.to_string(alloc)
}

impl SharedDiff {
    ghost use Rattle.std.specs.Prelude.{◌≡◌, IfOk};
    ghost use Rattle.serde_json.specs.Written.{compact_text};
    ghost use Rattle.presence_metas.specs.Values.{diff_of};

    /// Writes the text that tells the difference.
    pub fn new(alloc: Global, diff: RowDiff) -> Result<SharedDiff, AllocError>
        ensures { IfOk result (λ s. s ≡ diff) }
    {
        let text = write_diff(alloc, &diff)?;
        let written = Arc::new(alloc, WrittenDiff { diff, text })?;
        Ok(SharedDiff { written })
    }

    /// The same difference and text for one more. It costs no copy of them.
    pub fn share(&self) -> Result<SharedDiff, AllocError>
        ensures { IfOk result (λ s. s ≡ self.now) }
    {
        let written = Arc::try_clone(&self.written)?;
        Ok(SharedDiff { written })
    }

    pub fn diff(&self) -> &RowDiff
        ensures { result.now ≡ self.now }
    {
        &self.written.diff
    }

    /// The text of the payload that tells the difference.
    pub fn payload(&self) -> &str
        ensures { result.now ≡ compact_text (diff_of self.now.joins self.now.leaves) }
    {
        self.written.text.as_str()
    }
}

/// What a shout sends, with its text. Those who share it share the text.
pub struct SharedShout {
    sent: Payload,
}

impl Drop for SharedShout {
    fn drop(self) {
        let SharedShout { sent } = self;
        drop(sent);
    }
}

impl Model for SharedShout {
    ghost use Rattle.serde_json.specs.Data.{Data};
    ghost use Rattle.presence_base.specs.JsonCode.{data_code};

    ghost Value = { Data };

    ghost coded = { data_code };

    ghost view = { λ s. s.sent };
}

impl Debug for SharedShout {
    fn fmt<W: Write>(&self, f: &mut Formatter<W>) -> fmt::Result {
        self.sent().fmt(f)
    }
}

impl SharedShout {
    ghost use Rattle.std.specs.Prelude.{◌≡◌, IfOk};
    ghost use Rattle.serde_json.specs.Written.{compact_text};

    pub fn new(sent: Payload) -> SharedShout
        ensures { result ≡ sent }
    {
        SharedShout { sent }
    }

    /// The same for one more. It costs no copy.
    pub fn share(&self) -> Result<SharedShout, AllocError>
        ensures { IfOk result (λ s. s ≡ self.now) }
    {
        let sent = self.sent.clone()?;
        Ok(SharedShout { sent })
    }

    pub fn sent(&self) -> &Payload
        ensures { result.now ≡ self.now }
    {
        &self.sent
    }

    /// The text of the payload that is sent.
    pub fn payload(&self) -> &str
        ensures { result.now ≡ compact_text self.now }
    {
        self.sent.text()
    }
}
