// What the functions that answer records hand back. The lines stand in a lent text.
use rules::effect::ROOM;
use rules::state::End;

// The room that every line fits into.
pub const LINE: usize = 2 * ROOM + 64;

// One record was answered. No Result: seat and line hold for a bad record too.
#[derive(Clone, Copy)]
pub struct Replied {
    // The end that the script speaks of; none before a valid make.
    pub seat: Option<End>,
    // Where the line ends in the text.
    pub to: usize,
    // The record was bad, which ends the script.
    pub bad: bool,
}

// A piece of a script was played. No Result: all that was played before a bad record holds.
#[derive(Clone, Copy)]
pub struct Played {
    // The end that the script speaks of; none before a valid make.
    pub seat: Option<End>,
    // How many bytes of the piece were answered, and how many of the text were written.
    pub used: usize,
    pub wrote: usize,
    // A bad record has ended the script.
    pub ended: bool,
}

// What waited in the buffer of a program was played, as far as it went. Numbers and not slices, since what they
// count is lent by the caller and the law says them (`Promise.Feeds`, as `Promise.Plays` and `Promise.Tells` those above).
#[derive(Clone, Copy)]
pub struct Fed {
    // The end that the script speaks of; none before a valid make.
    pub seat: Option<End>,
    // How many bytes of the text are to be printed.
    pub wrote: usize,
    // Where the bytes of the buffer stand that are still to be played.
    pub start: usize,
    pub end: usize,
    pub next: Next,
}

// What a program does once it has printed.
#[derive(Clone, Copy)]
pub enum Next {
    // More can be played of what has come.
    Again,
    // More must come, behind what is kept.
    Read,
    // Nothing is left to do.
    Stop,
}
