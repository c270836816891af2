// The Sunday script, played as the crate `script` says: records in, lines out.
//
// `play::play` answers the records of a script or of a piece of one, and `reply::reply` answers one record.
// `feed::feed` is what a program does between two reads. They take anything, and nothing is kept between calls.
#![tactic(auto)]

pub mod feed;
mod line;
mod part;
pub mod play;
mod record;
pub mod reply;
mod text;
