// Numbers that wrap, judged: sequence numbers of 16 bits and clock readings of 32.
//
// Every difference here is a remainder, so nothing happens at a wrap. No function has a `requires`.
#![tactic(auto)]

pub mod clock;
pub mod sequence;
