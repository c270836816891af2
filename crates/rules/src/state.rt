// What one end holds. Fields that change together stand together, the widest first: a struct is moved in
// pieces of eight bytes, and a piece of fields that were stored at other widths stalls.
use crate::settings::Settings;
use judge::clock::{Offsets, Reading};
use queue::Ring;

#[derive(Clone, Copy)]
pub enum Role {
    Initiator,
    Called,
}

// The initiator goes from Idle by Calling, Opening and Settling to Up, the called end from Idle by
// Greeted, Answering and Closing.
#[derive(Clone, Copy)]
pub enum Life {
    Idle,
    Calling,
    Opening,
    Settling,
    Greeted,
    Answering,
    Closing,
    Up,
}

// A life as far as most rules tell it apart.
#[derive(Clone, Copy)]
pub enum Phase {
    Idle,
    Starting,
    Up,
}

// When the last kind 6 went, and when the last message was delivered; or coming Up.
#[derive(Clone, Copy, Default)]
pub struct Times {
    pub said: Reading,
    pub heard: Reading,
}

// The stamps to echo: the peer's reading in the last message accepted, and the own one then.
#[derive(Clone, Copy, Default)]
pub struct Echo {
    pub peer: Reading,
    pub own: Reading,
}

// The number of the next message, and that of the last one accepted.
#[derive(Clone, Copy, Default)]
pub struct Numbers {
    pub next: u16,
    pub last: u16,
}

// What an end holds of its connection. All zeros while Idle.
#[derive(Clone, Copy, Default)]
pub struct Line {
    // The peer's clock against the own one. Its `since` is the own reading in kind 1 or kind 2, from when
    // that is sent.
    pub offsets: Offsets,
    // When the wait for the start began.
    pub began: Reading,
    pub times: Times,
    pub echo: Echo,
    pub numbers: Numbers,
    // Old and late messages since the last delivery.
    pub failures: u8,
    // Whether a kind 6 has gone in or after the last tick, so that data must wait.
    pub busy: bool,
}

// When an initiator last asked, and whether it may ask again without waiting. No Option: when it last asked is kept
// in both cases.
#[derive(Clone, Copy)]
pub struct Asking {
    pub when: Reading,
    pub at_once: bool,
}

#[derive(Clone, Copy)]
pub struct End {
    pub settings: Settings,
    pub line: Line,
    // The reading of the last event that was taken.
    pub reading: Reading,
    pub asking: Asking,
    // The user's data that wait.
    pub ring: Ring,
    pub role: Role,
    pub life: Life,
}
