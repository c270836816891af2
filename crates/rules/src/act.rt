// What can happen to an end, and what an end does about it: one act for each rule.
use crate::answer::Answer;
use judge::clock::Offsets;
use wire::message::{Body, Header};

// What can happen. The bytes of user data and of messages stand beside it.
#[derive(Clone, Copy)]
pub enum Event {
    Tick,
    Connect,
    Confirm,
    Disconnect,
    Data,
    Message,
}

#[derive(Clone, Copy)]
pub enum Act {
    // Everything stays as it is, the reading too.
    Stay(Answer),
    // The new reading is kept, and nothing else changes.
    Note(Answer),
    Move(ConnectionMove),
    Start(Exchange),
    Hear(Verdict),
    Say(Speech),
}

// How a connection begins and ends.
#[derive(Clone, Copy)]
pub enum ConnectionMove {
    Ask,
    Accept,
    // Down without a release, since the peer is gone already.
    Lose,
    // Down with a release, and with an error report before it where one is due.
    Fall { answer: Answer, error: bool },
}

// A message of the start that has come, and the body of the one that goes back.
#[derive(Clone, Copy)]
pub struct Swap {
    pub came: Header,
    pub goes: Body,
}

// The same, with the offsets that are worked out from what came.
#[derive(Clone, Copy)]
pub struct Measurement {
    pub swap: Swap,
    pub offsets: Offsets,
}

// The messages of the clock start.
#[derive(Clone, Copy)]
pub enum Exchange {
    // Confirmed: the first message goes out.
    Begin(Body),
    // The initiator's first has come.
    Greet(Swap),
    // The first answer has come, and the offsets are measured.
    Measure(Measurement),
    // The second answer has come, and the offsets are measured.
    Estimate(Measurement),
    // The estimate has come: the last message goes out, and the end is up.
    Finish(Swap),
    // The last has come: the end is up.
    Rise(Header),
}

// A message that is delivered: train data to the user, a life sign to nobody.
#[derive(Clone, Copy)]
pub struct Delivery {
    pub header: Header,
    pub age: u32,
    // How many messages are missing before it.
    pub skipped: u16,
    pub train: bool,
}

// What is made of a message while Up. It is no Result: a report is carried out like a delivery, and no call fails.
#[derive(Clone, Copy)]
pub enum Verdict {
    // After a gap with an error report.
    Deliver(Delivery),
    // Refused with an error report, as so many in a row now.
    Report { answer: Answer, failures: u8 },
}

// What is said while Up.
#[derive(Clone, Copy)]
pub enum Speech {
    // A tick with nothing to say.
    Quiet,
    // A life sign.
    Beat,
    // The user's data, at once.
    Speak,
    // The oldest data that wait.
    Drain,
    // The user's data have to wait.
    Hold,
}
