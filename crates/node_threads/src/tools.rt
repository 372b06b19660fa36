//! What a worker has of its own.
use std::snapshot::Snapshot;
use std::thread::Promise;

/// What a worker is given, and hands back once its work is over.
pub trait Tools {
    /// What may be handed back for these.
    ghost returns: { Self → Self → Type 0 };
}

// The promise of a thread that was given these tools.
#[derive(Drop)]
pub(crate) struct HandsBack<T>(pub Snapshot<T>);

impl<T: Tools> Promise<T> for HandsBack<T> {
    ghost kept_by = { λ promise back. T.returns promise.0.value back };
}
