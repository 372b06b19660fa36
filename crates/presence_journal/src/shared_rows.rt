// The rows of a topic with the text of the payload that tells them, for all who take them while they stay as they are.
ghost use Rattle.std.specs.Prelude.{◌≡◌, IfOk, IfSome, string_bytes};
ghost use Rattle.std.specs.Arc.{arc_value};
ghost use Rattle.serde_json.specs.Written.{compact_text};
ghost use Rattle.presence_metas.specs.Values.{state_of};
ghost use Rattle.presence_journal.specs.RowDots.{dots_in};

use crate::listed_dots::ListedDots;
use presence_base::{Dot, Row};
use presence_metas::{are_in_key_order, state_text, state_value};
use std::alloc::{AllocError, Global};
use std::fmt::{self, Debug, Formatter, Write};
use std::marker::Model;
use std::sync::Arc;

// Rows with their dots.
#[derive(Drop)]
struct ListedRows {
    rows: Vec<(Dot, Row)>,
    dots: ListedDots,
    ghost exact: { dots ≡ dots_in rows.items },
}

// Rows with the text of the payload that tells them.
#[derive(Drop)]
struct WrittenRows {
    listed: Arc<ListedRows, Global>,
    text: String,
    ghost exact: { string_bytes text ≡ compact_text (state_of (arc_value listed).rows.items) },
}

// Where the rows lie.
#[derive(Drop)]
enum HeldRows {
    Bare(Arc<ListedRows, Global>),
    Written(Arc<WrittenRows, Global>),
}

/// The rows of a topic with their dots, and with the text that tells them where it was written. Those who share them
/// share all of it.
pub struct SharedRows {
    held: HeldRows,
}

impl Drop for SharedRows {
    fn drop(self) {
        let SharedRows { held } = self;
        drop(held);
    }
}

impl Model for SharedRows {
    ghost use Rattle.std.specs.Prelude.{List};
    ghost use Rattle.std.specs.Coded.{coded_list, coded×};
    ghost use Rattle.presence_base.specs.declared.dots.Dot.{Dot};
    ghost use Rattle.presence_base.specs.declared.row.Row.{Row};
    ghost use Rattle.presence_base.specs.Codes.{dot_code, row_code};
    ghost use Rattle.presence_journal.specs.HeldRows.{held_rows};

    ghost Value = { List (Dot × Row) };

    ghost coded = { coded_list (coded× dot_code row_code) };

    ghost view = { λ s. held_rows s.held };
}

impl Debug for SharedRows {
    fn fmt<W: Write>(&self, f: &mut Formatter<W>) -> fmt::Result {
        self.as_slice().fmt(f)
    }
}

/// The dots of these rows.
pub fn dots_of_rows(alloc: Global, rows: &[(Dot, Row)]) -> Result<Vec<Dot>, AllocError>
    ensures { IfOk result (λ v. v.items ≡ dots_in rows.now) }
{
    let mut dots = Vec::with_capacity(alloc, rows.len())?;
    for row in rows {
        dots.push(row.0)?;
    }
    Ok(dots)
}

// The rows with their dots, of which they share what stayed since the list before, if there is one.
fn listed_rows(
    alloc: Global,
    rows: Vec<(Dot, Row)>,
    before: Option<&ListedDots>,
) -> Result<ListedRows, AllocError>
    ensures { IfOk result (λ l. l.rows.items ≡ rows.items) }
{
    let dots = ListedDots::of_rows(alloc, &rows, before)?;
    Ok(ListedRows { rows, dots })
}

// The text of the payload that tells a topic's rows.
fn write_state(alloc: Global, rows: &[(Dot, Row)]) -> Result<String, AllocError>
    ensures { IfOk result (λ s. string_bytes s ≡ compact_text (state_of rows.now)) }
{
    if are_in_key_order(rows) {
        return state_text(alloc, rows);
    }
    let value = state_value(alloc, rows)?;
    value.to_string(alloc)
}

// Writes the text of rows that lie where they are shared.
fn write_rows(
    alloc: Global,
    listed: &Arc<ListedRows, Global>,
) -> Result<Arc<WrittenRows, Global>, AllocError>
    ensures { IfOk result (λ w. (arc_value (arc_value w).listed).rows.items ≡ (arc_value listed.now).rows.items) }
{
    let text = write_state(alloc, listed.rows.as_slice())?;
    let listed = Arc::try_clone(listed)?;
    let written = Arc::new(alloc, WrittenRows { listed, text })?;
    Ok(written)
}

impl SharedRows {
    ghost use Rattle.std.specs.Prelude.{◌≡◌, IfOk, IfSome, string_bytes};
    ghost use Rattle.serde_json.specs.Written.{compact_text};
    ghost use Rattle.presence_metas.specs.Values.{state_of};
    ghost use Rattle.presence_journal.specs.RowDots.{dots_in};

    /// The rows, without their text. It copies none of them but their dots.
    pub fn new(alloc: Global, rows: Vec<(Dot, Row)>) -> Result<SharedRows, AllocError>
        ensures { IfOk result (λ s. s ≡ rows.items) }
    {
        let listed = listed_rows(alloc, rows, None)?;
        let held = HeldRows::Bare(Arc::new(alloc, listed)?);
        Ok(SharedRows { held })
    }

    /// The rows of a topic, without their text. It copies none of them, and of their dots only those that didn't stay since
    /// the list before, if there is one, and some of their neighbours.
    pub fn after(
        alloc: Global,
        rows: Vec<(Dot, Row)>,
        before: Option<&ListedDots>,
    ) -> Result<SharedRows, AllocError>
        ensures { IfOk result (λ s. s ≡ rows.items) }
    {
        let listed = listed_rows(alloc, rows, before)?;
        let held = HeldRows::Bare(Arc::new(alloc, listed)?);
        Ok(SharedRows { held })
    }

    /// The same rows for one more, with their text where it is written. It costs no copy of them.
    pub fn share(&self) -> Result<SharedRows, AllocError>
        ensures { IfOk result (λ s. s ≡ self.now) }
    {
        let held = match &self.held {
            HeldRows::Bare(listed) => HeldRows::Bare(Arc::try_clone(listed)?),
            HeldRows::Written(written) => HeldRows::Written(Arc::try_clone(written)?),
        };
        Ok(SharedRows { held })
    }

    /// The same rows with their text, which all who share the result share. Where it is written already, it is shared,
    /// else the cost is that of writing it, and no row is copied.
    pub fn with_text(&self, alloc: Global) -> Result<SharedRows, AllocError>
        ensures { IfOk result (λ s. s ≡ self.now) }
    {
        let held = match &self.held {
            HeldRows::Bare(listed) => HeldRows::Written(write_rows(alloc, listed)?),
            HeldRows::Written(written) => HeldRows::Written(Arc::try_clone(written)?),
        };
        Ok(SharedRows { held })
    }

    pub fn as_slice(&self) -> &[(Dot, Row)]
        ensures { result.now ≡ self.now }
    {
        match &self.held {
            HeldRows::Bare(listed) => listed.rows.as_slice(),
            HeldRows::Written(written) => written.listed.rows.as_slice(),
        }
    }

    /// The dots of the rows, which all who share the rows share. It copies none of them.
    pub fn dots(&self) -> Result<ListedDots, AllocError>
        ensures { IfOk result (λ d. d ≡ dots_in self.now) }
    {
        match &self.held {
            HeldRows::Bare(listed) => listed.dots.clone(),
            HeldRows::Written(written) => written.listed.dots.clone(),
        }
    }

    /// The bytes that the dots took when they were made. No contract speaks of it.
    pub fn new_bytes(&self) -> u64 {
        match &self.held {
            HeldRows::Bare(listed) => listed.dots.new_bytes(),
            HeldRows::Written(written) => written.listed.dots.new_bytes(),
        }
    }

    /// The text of the payload that tells the rows as a state, if it was written.
    pub fn text(&self) -> Option<&str>
        ensures { IfSome result (λ s. s.now ≡ compact_text (state_of self.now)) }
    {
        match &self.held {
            HeldRows::Bare(_) => None,
            HeldRows::Written(written) => Some(written.text.as_str()),
        }
    }

    /// Writes that text anew, for one who shares it with nobody.
    pub fn write_text(&self, alloc: Global) -> Result<String, AllocError>
        ensures { IfOk result (λ s. string_bytes s ≡ compact_text (state_of self.now)) }
    {
        write_state(alloc, self.as_slice())
    }
}
