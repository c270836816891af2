// One end of a link.
//
// `make::make` makes a fresh end, and `step::step` takes one event: an end, an event and a reading go
// in, and the next end comes out with the answer, the reports and what was put at the front of the
// lent output. Both take anything, and nothing is kept between calls.
//
// A step goes in three: the crate `decide` decides by tests alone, the crate `perform` works out what
// follows without tests, and `place` alone touches bytes. Functions and no methods, since `rules` holds types alone.
#![tactic(auto)]

pub mod answer;
pub mod make;
mod place;
mod settings;
pub mod step;
