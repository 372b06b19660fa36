//! What the server counts, as `/metrics` tells it in Prometheus's form.
//!
//! The counts are shared by the threads of the server, so no contract speaks of them. What is told of them at one time is a
//! text of exactly these lines: `specs/Metrics`, over `specs/Lines`.
#![tactic(auto)]

mod count;
mod counts;
mod ended;
mod families;
mod kinds;
mod metrics;
mod text;
mod told;

pub use counts::{Checkpoint, Counts, Dropped};
pub use ended::Ended;
pub use metrics::metrics_text;
pub use told::{AnswersTold, EndsTold, LinksTold, ProcessTold, ServerTold, ShardsTold};
