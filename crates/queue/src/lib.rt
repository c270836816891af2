// Data that wait to be sent: a ring of eight places in lent bytes. The definitions in specs/ say what any
// bytes and any numbers hold; the crate `store` puts in and takes out.
#![tactic(auto)]

use wire::message::LONGEST;

pub const PLACES: u8 = 8;

// A length of two bytes, and room for the longest data.
pub const SLOT: usize = 2 + LONGEST;

// A whole queue.
pub const BYTES: usize = PLACES as usize * SLOT;

// Which place is the oldest, and how many wait. No VecDeque: memory is fixed, and the end holds no heap.
#[derive(Clone, Copy)]
pub struct Ring {
    pub head: u8,
    pub count: u8,
}
