// Train data put into the ring of the crate `queue`, and taken out of it.
//
// Any bytes and any numbers are a ring: a head goes round, a count is held to the places, and the
// length in a slot to those of data. So every entry can be sent, and no call fails.
// Functions and no methods, since `queue` holds types alone.
#![tactic(auto)]

ghost use Rattle.std.specs.Prelude.{◌≡◌, ◌+◌, ◌%◌, ◌<◌};
ghost use Rattle.queue.specs.Ring.{places, slot_data, empty_ring, waiting_in, oldest_in, without_oldest, put_ring, put_bytes, Sendable};

use codec::number::{read, write};
use queue::{BYTES, PLACES, Ring, SLOT};
use wire::message::LONGEST;

pub fn empty() -> Ring
    ensures { result ≡ empty_ring }
{
    Ring { head: 0, count: 0 }
}

// How many wait.
pub fn waiting(r: Ring) -> u8
    ensures { result ≡ waiting_in r }
{
    r.count.min(PLACES)
}

// The data of the oldest entry, as a part of the queue. Where none waits, what its place holds.
pub fn oldest(q: &[u8; BYTES], r: Ring) -> &[u8]
    ensures oldest { result.now ≡ oldest_in q.now r }
    ensures sendable { Sendable result.now }
{
    let (slots, _) = q.as_chunks::<SLOT>();
    slot_data(&slots[place(r, 0)])
}

// Without the oldest; a ring with none waiting stays as it is. No byte changes.
pub fn without_oldest(r: Ring) -> Ring
    ensures { result ≡ without_oldest r }
{
    let Some(count) = waiting(r).checked_sub(1) else {
        return r;
    };
    Ring {
        head: place(r, 1) as u8,
        count,
    }
}

// Data stored at the end, where a place is free and the data have 1 to LONGEST bytes; else nothing
// changes.
pub fn put(q: &mut [u8; BYTES], r: Ring, d: &[u8]) -> Ring
    ensures value { result ≡ put_ring r d.now }
    ensures q_after { q.new ≡ put_bytes q.old r d.now }
{
    let count = waiting(r);
    if count == PLACES || !(1..=LONGEST).contains(&d.len()) {
        return r;
    }
    // By arithmetic: of `as_chunks_mut` std says nothing of what the bytes end as.
    let slot = &mut q[place(r, count) * SLOT..];
    write(slot, 0, d.len() as u16);
    slot[2..2 + d.len()].copy_from_slice(d);
    Ring {
        count: count + 1,
        ..r
    }
}

// The place of the entry that has `before` older ones.
fn place(r: Ring, before: u8) -> usize
    ensures { (result ≡ (r.head + before) % places) × (result < places) }
{
    (usize::from(r.head) + usize::from(before)) % usize::from(PLACES)
}

// The data of a slot, their length held to those that data have.
#[tactic(auto, unfolding(queue::specs::Ring::slot_data))]
fn slot_data(slot: &[u8; SLOT]) -> &[u8]
    ensures { result.now ≡ slot_data slot.now }
{
    let length: u16 = read(slot, 0);
    &slot[2..2 + usize::from(length).clamp(1, LONGEST)]
}
