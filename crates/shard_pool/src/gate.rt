//! What happens before, inside and after a lock.
/// What is called around each seated call, with the numbers of the seat and of the shard.
pub trait Gate {
    /// Before the lock is asked for.
    fn before(&self, seat: u32, shard: u32);

    /// While the lock is held, before the step.
    fn inside(&self, seat: u32, shard: u32);

    /// After the lock was let go.
    fn after(&self, seat: u32, shard: u32);
}

/// A gate that does nothing.
#[derive(Clone, Copy, Debug)]
pub struct NoGate;

impl Gate for NoGate {
    fn before(&self, _seat: u32, _shard: u32) {}

    fn inside(&self, _seat: u32, _shard: u32) {}

    fn after(&self, _seat: u32, _shard: u32) {}
}

impl<T: Gate> Gate for &T {
    fn before(&self, seat: u32, shard: u32) {
        (**self).before(seat, shard)
    }

    fn inside(&self, seat: u32, shard: u32) {
        (**self).inside(seat, shard)
    }

    fn after(&self, seat: u32, shard: u32) {
        (**self).after(seat, shard)
    }
}
