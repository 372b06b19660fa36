//! The three claims about a world of nodes, said of the plain tables of its lives, and the law that a node's step is one of its
//! table. No program uses them. The contracts of `laws` cite these definitions:
//! - `specs/Claims`: what no table invents or resurrects, and when two show the same
//! - `specs/Steps`: what a node's step makes of the tables
#![tactic(auto)]

pub mod laws;
