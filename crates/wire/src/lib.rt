// What goes on the line: the types of a message. The definitions in specs/ say what its bytes are; the
// crate `codec` reads and writes them.
#![tactic(auto)]

pub mod message;
