//! The presence list as a client keeps it, and what a server adds to it.

mod extras;
mod fetching;
mod folding;
mod frames;
mod noting;
mod refusing;
mod routes;
mod rows;
