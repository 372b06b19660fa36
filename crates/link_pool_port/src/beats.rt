//! The beat that a cut makes.
ghost use Rattle.std.specs.Prelude.{◌≡◌, IfOk};
ghost use Rattle.link_pool_port.specs.Asking.{beat_line, news_of};

use delta_range::Delta;
use link_lines::{Line, Telling};
use orswot_core::Form;
use std::alloc::{AllocError, Global};

// What a cut tells in the form, where there are new counts.
fn news(alloc: Global, cut: &Delta, form: Form) -> Result<Option<Telling>, AllocError>
    ensures { IfOk result (λ news. news ≡ news_of form cut.now) }
{
    if cut.from() == cut.to() {
        return Ok(None);
    }
    let told = cut.told(alloc, form)?;
    Ok(Some(Telling { form, told }))
}

/// The beat of a cut: up to which count it goes, and what it tells in the form where there are new counts.
pub fn beat_of(alloc: Global, shard: u32, cut: &Delta, form: Form) -> Result<Line, AllocError>
    ensures { IfOk result (λ line. line ≡ beat_line form shard cut.now) }
{
    let delta = news(alloc, cut, form)?;
    Ok(Line::Beat {
        shard,
        replica: cut.owner(),
        count: cut.to(),
        delta,
    })
}
