//! Contexts, sets and told values, and lives that are gone.

mod contexts;
mod forms;
mod listed;
mod lives;
mod rows;
