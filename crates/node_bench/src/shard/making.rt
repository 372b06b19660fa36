// What another node tells the room.
use crate::making::{ROOM, checked, raw_row};
use orswot_core::{Form, RawTold, Told};
use presence_base::{Dot, Replica};
use std::alloc::{AllocError, Global};

/// What tells the row of another node's count behind `n`.
pub fn told(alloc: Global, from: &Replica, n: u64) -> Result<Told, AllocError> {
    let count = n.saturating_add(1);
    let dot = Dot {
        replica: *from,
        count,
    };
    let mut ranges = Vec::new(alloc);
    ranges.push((*from, n, count))?;
    let mut live = Vec::new(alloc);
    let key = format!(in alloc; "b{n}")?;
    live.push((dot, raw_row(alloc, ROOM, key.as_str())?))?;
    checked(
        alloc,
        RawTold {
            form: Form::One,
            ranges,
            extras: Vec::new(alloc),
            live,
        },
    )
}
