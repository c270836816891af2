// The law of the Sunday script: what its records are, and the line that answers each.
//
// Here are the types alone. The definitions in specs/ say what a script prints (`Script.printed`) and what a
// piece of one does (`Play.played`); the crate `player` prints it.
#![tactic(auto)]

pub mod record;
pub mod reply;
