//! Clones of told values.
use super::Told;
use std::alloc::AllocError;

impl Clone for Told {
    ghost use Rattle.std.specs.Prelude.{◌≡◌};

    ghost is_clone = { λ t u. u ≡ t };

    fn clone(&self) -> Result<Told, AllocError> {
        let ranges = self.ranges.clone()?;
        let extras = self.extras.clone()?;
        let live = self.live.clone()?;
        Ok(Told {
            ranges,
            extras,
            live,
        })
    }
}
