// What follows from an event.
use crate::answer::Answer;
use crate::state::End;
use queue::Ring;
use wire::message::{HEADER, LONGEST, Message};

// The least output that an event has to be lent: room for the longest message.
pub const ROOM: usize = HEADER + 1 + LONGEST;

// What is reported. The order in which outputs leave is that of `Outputs.outputs_of` in specs/.
#[derive(Clone, Copy, Default)]
pub struct Flags {
    pub ask: bool,
    pub accept: bool,
    pub up: bool,
    pub error: bool,
    pub release: bool,
    pub down: bool,
}

// What is to be done with bytes. Nothing is one of six cases that are all carried out: an Option of five is no plainer.
#[derive(Clone, Copy)]
pub enum Placing {
    Nothing,
    // A message without train data goes out.
    Send(Message),
    // The user's data go out.
    SendUser(Message),
    // The oldest data of the queue go out.
    SendOldest { message: Message, ring: Ring },
    // Train data are delivered.
    Deliver,
    // The user's data join the queue.
    Store(Ring),
}

// An act carried out, but for its bytes.
#[derive(Clone, Copy)]
pub struct Effect {
    pub end: End,
    pub placing: Placing,
    pub flags: Flags,
    pub answer: Answer,
}

// What stands at the front of the lent output, and how many bytes it has: a count, since the output is the caller's.
// Nothing is a third kind of front: an Option of the other two is no plainer.
#[derive(Clone, Copy)]
pub enum Front {
    Nothing,
    Message(usize),
    Datum(usize),
}

// What one event came to. An effect says what is to be done with bytes, and this what came of it: the law has both
// (`Step.result_of`).
#[derive(Clone, Copy)]
pub struct Outcome {
    pub end: End,
    pub front: Front,
    pub flags: Flags,
    pub answer: Answer,
}
