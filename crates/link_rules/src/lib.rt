//! Who may be at the other end of a link, and what is said of a link: that it comes up, goes, or is odd; and what a node does
//! that another one has given up.
//!
//! What its contracts cite:
//! - `specs/Words`: who is refused, and the number of each refusal
//! - `specs/Admitting`: where links may come from
//! - `specs/Warnings`: what is said of what is odd about a link
//! - `specs/Saying`: when it is said that a link is up
//! - `specs/Lives`: the lives of a node, and which links are of which
//! - `specs/Hearing`: when a shard is told that a node was heard
//! - `specs/Keying`: how both ends show that they have a key in common, and `specs/Apart` that a code of one link is none of another
//! - `specs/Known`: what another node is told that is known of it
//! - `specs/Rebirths`: how often a node goes on under a higher incarnation
#![tactic(auto)]

mod admitting;
mod end;
mod hearing;
mod keying;
mod known;
pub mod laws;
mod lives;
mod meeting;
mod rebirths;
mod saying;
mod warning;
mod warnings;
mod words;

pub use admitting::is_admitted;
pub use end::LinkEnd;
pub use hearing::{HEARD_MILLISECONDS, is_heard_anew};
pub use keying::{
    CODE_BYTES, Challenged, answer_in, answer_line, challenge_in, challenge_line, is_challenge,
    is_key_wanted, is_proved, names, nonce_of, proof_in, proof_line, wanted_line,
};
pub use known::{known_in, known_line};
pub use lives::{Came, Coming, Course, Life, MOST_AHEAD, is_due};
pub use meeting::{greeted, is_welcome};
pub use rebirths::{REBIRTH_MILLISECONDS, Rebirths};
pub use saying::Saying;
pub use warning::LinkWarning;
pub use warnings::warning_line;
pub use words::{MAX_LINKS, down_line, up_line};
