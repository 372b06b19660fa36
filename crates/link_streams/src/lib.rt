//! The streams of links between nodes: sockets that are given up after a silence, where a line takes too long, or once they
//! are to end; the times by which their threads go; and the clerk that they ask for what is done one at a time.
//!
//! Of sockets, clocks and waits no contract speaks. What its contracts cite:
//! - `specs/Lines`: which lines are long
//! - `specs/Ticker`: by how much the time that is handed in goes on
#![tactic(auto)]

mod clerk;
pub mod laws;
mod stopping;
mod stream;
mod ticker;

pub use clerk::Clerk;
pub use stopping::{Stopping, time_behind};
pub use stream::{
    Asking, HELLO_MILLISECONDS, LINE_MILLISECONDS, LONG_LINE_BYTES, LinkStream, MAX_HELLO_BYTES,
    MAX_LOOKS, is_long,
};
pub use ticker::Ticker;
