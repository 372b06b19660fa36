//! The world of nodes by lines of text, each a JSON array: what happens, and what is asked.
//!
//! The first line names the nodes, and each line behind it is an event or asks something. No contract is here: what an event
//! makes of the world, and what is answered, are those of node_world.
//!
//! | Line | What it is |
//! |---|---|
//! | `["names",["a","b"]]` | the nodes; no other line comes before it, and none like it behind |
//! | `["client",node,"track",pid,topic,key,meta]`, `["client",node,"update",pid,topic,key,meta]` | a track, an update |
//! | `["client",node,"untrack",pid,topic,key]`, `["client",node,"untrack_all",pid,topic]` | rows are taken out |
//! | `["cut",node]`, `["full",node,null]`, `["full",node,from]` | a node tells |
//! | `["part",node,from]`, `["part",node,from,to]` | a node tells a part of what was counted above `from`, or above it up to `to` |
//! | `["form",1]`, `["form",2]` | in which form nodes tell from here on; before any such line it is the first |
//! | `["deliver",node,told]` | what was told comes to a node |
//! | `["deliver_others",node,told]` | so much of it as is told of other nodes, by their names |
//! | `["heard",node,[name,incarnation],now]`, `["tick",node,now]` | a replica is heard, time passes |
//! | `["permdown",node,[name,incarnation]]` | a replica is gone for good |
//! | `["checkpoint",node]`, `["restart",node,incarnation]` | a Start in the journal's place, a new life |
//! | `["rebirth",node,incarnation]` | the node goes on under a higher incarnation, with all its rows |
//! | `["list",node,topic]` | asks for `[reference,key,pid,meta,previous reference or null]` of each row, in order |
//! | `["told"]`, `["caught_up",node,[name,incarnation]]` | asks how many values were told, whether a node is caught up |
//!
//! A node is its position among the names, and `told` that of a told value among all, both from 0.
#![tactic(auto)]

mod answers;
mod events;
mod fault;
mod line;
mod lines;
mod members;
mod reading;

pub use fault::LineFault;
pub use lines::Lines;
