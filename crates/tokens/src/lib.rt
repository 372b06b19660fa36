//! Tokens that a client shows: JSON Web Tokens (RFC 7519) in their compact form (RFC 7515), signed by HMAC with SHA-256 under
//! one of a server's keys; and what they grant.
//!
//! Its contracts cite these definitions:
//! - `specs/Judging`: what a token grants, or the first thing that is wrong with it
//! - `specs/Parts`: the three parts of a token, and what they encode
//! - `specs/Unique`: JSON in which no object has a member twice
//! - `specs/Claimed`: what a head and claims say
//! - `specs/Certified`: what stands behind a token that is taken
//! - `specs/Judged`: what a grant came of
//! - `specs/Signing`, `specs/Held`: at which second and under which keys, and what a grant holds
//! - `specs/Granting`: what is granted where a token grants this
//! - `specs/Making`: the text of a token that is made
#![tactic(auto)]

mod claims;
mod fault;
mod grant;
mod judging;
pub mod laws;
mod making;
mod parts;
mod reading;
mod signing;
#[cfg(test)]
mod tests;

pub use claims::Claims;
pub use fault::TokenFault;
pub use grant::Grant;
pub use judging::verify;
pub use making::Wanted;
pub use signing::Signing;
