// What follows from an act: the end afterwards, the reports, the answer, and what is to be done with bytes.
//
// There are no tests here but those of the act and of the end that it came to, and no bytes. Functions and no methods, since
// `rules` holds types alone.
#![tactic(auto)]

mod connecting;
pub mod end;
mod exchanging;
pub mod line;
pub mod perform;
mod talking;
