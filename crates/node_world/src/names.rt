//! Names that are equal.
ghost use Rattle.std.specs.Prelude.{◌≡◌, IfOk};
ghost use Rattle.presence_base.specs.Order.{same_text};
ghost use Rattle.orswot_core.specs.Checks.{has_repeat};

use presence_base::NodeName;
use std::alloc::{AllocError, Global};
use std::collections::BTreeSet;

/// Whether two of the names are equal.
pub fn has_name_twice(alloc: Global, names: &[NodeName]) -> Result<bool, AllocError>
    ensures { IfOk result (λ b. b ≡ has_repeat same_text names.now) }
{
    let mut seen = BTreeSet::new(alloc);
    for name in names {
        if seen.contains(name) {
            return Ok(true);
        }
        seen.insert(*name)?;
    }
    Ok(false)
}
