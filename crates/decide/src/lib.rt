// What an event comes to: tests alone, in the order of the answers.
//
// An end and a reading go apart in all of this, as in the law: the reading is judged against what the end holds, so the end
// cannot have taken it yet, and a struct of both would be taken apart in each clause. Functions and no methods, since
// `rules` holds types alone.
#![tactic(auto)]

pub mod decide;
mod hearing;
mod living;
mod speaking;
mod starting;
