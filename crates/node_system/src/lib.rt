//! What a node has of its system: sockets that never block, and which of them are ready; and of its own process the
//! memory that it has and that there is for it, and how many files. Where the system says nothing of these nothing
//! is known.
//!
//! Of what is registered, and of what a wait reports, no contract speaks: the system holds that.
//!
//! Its contracts cite these definitions:
//! - `specs/Watching`: what a watch reports
#![tactic(auto)]

mod files;
pub mod laws;
mod listening;
mod machine;
mod reading;
mod said;
mod watch;

pub use files::is_no_file;
pub use listening::{listen, next_stream};
pub use machine::memory_there;
pub use reading::{max_files, open_files, resident_bytes};
pub use said::{group_in, limit_in, pages_in, total_in};
pub use watch::{Bell, LAST_TOKEN, Watch, number_of};
