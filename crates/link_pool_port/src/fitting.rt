//! What goes along with a beat.
ghost use Rattle.std.specs.Prelude.{◌≡◌, false, Ok, IfOk};
ghost use Rattle.delta_range.specs.Fitting.{fits_line};
ghost use Rattle.link_pool_port.specs.Fitting.{bare_line, fitting_line, is_large_beat as is_too_large};

use crate::beats::beat_of;
use crate::parts::is_large;
use delta_range::Delta;
use link_lines::Line;
use orswot_core::Form;
use std::alloc::{AllocError, Global};

/// The beat of a cut without what the cut tells: up to which count it goes.
pub fn bare_beat(shard: u32, cut: &Delta) -> Line
    ensures { result ≡ bare_line shard cut.now }
{
    Line::Beat {
        shard,
        replica: cut.owner(),
        count: cut.to(),
        delta: None,
    }
}

// Whether a beat tells more than is told whole, in the second form.
fn is_large_beat(form: Form, beat: &Line) -> bool
    ensures { result ≡ is_too_large form beat.now }
{
    match form {
        Form::One => false,
        Form::Two => match beat {
            Line::Beat {
                shard,
                delta: Some(delta),
                ..
            } => is_large(*shard, &delta.told),
            _ => false,
        },
    }
}

/// The beat of a cut, with what the cut tells in the form where that has no more rows and older counts, in the second form
/// rows, older runs and the cut's range, than a line takes, and in the second form no more than is told whole. These are counted
/// before a dot or a range is made of them, and where they are too many no memory is needed. A node that missed it wants, and is
/// told a kept delta that fits, else all that the shard knows, in the second form a part where that is shorter, else nothing.
pub fn fitting_beat(alloc: Global, shard: u32, cut: &Delta, form: Form) -> Result<Line, AllocError>
    ensures beat { IfOk result (λ line. line ≡ fitting_line form shard cut.now) }
    ensures bare { fits_line form cut.now ≡ false → result ≡ Ok (bare_line shard cut.now) }
{
    if !cut.fits_line(form) {
        return Ok(bare_beat(shard, cut));
    }
    let beat = beat_of(alloc, shard, cut, form)?;
    if is_large_beat(form, &beat) {
        return Ok(bare_beat(shard, cut));
    }
    Ok(beat)
}
