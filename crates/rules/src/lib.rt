// The law of one end: its settings, its state, what can happen to it and what it does about that.
//
// Here are the types alone. The definitions in specs/ say what every event comes to (`Step.stepped`) and how
// an end begins (`Make.made_of`); the crates `decide`, `perform` and `link` do it.
#![tactic(auto)]

pub mod act;
pub mod answer;
pub mod effect;
pub mod settings;
pub mod state;
