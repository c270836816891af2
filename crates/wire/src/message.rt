// A message as its fields. Train data are no field: they stay in the bytes that they stand in.
use judge::clock::{Offset, Stamps};

// The longest train data of one message.
pub const LONGEST: usize = 100;

// The bytes before a body: kind, number and the three time stamps.
pub const HEADER: usize = 15;

// The first byte of a payload: a life sign has nothing after it, train data follow theirs.
pub const LIFE_SIGN: u8 = 2;

pub const TRAIN_DATA: u8 = 3;

// What every message carries.
#[derive(Clone, Copy)]
pub struct Header {
    pub stamps: Stamps,
    // The sequence number.
    pub number: u16,
}

// What a message is for: the five of the clock start, and the two of a link that is up.
#[derive(Clone, Copy)]
pub enum Body {
    OffsetStart,
    OffsetAnsw1,
    OffsetAnsw2,
    OffsetEst { minimum: Offset, maximum: Offset },
    OffsetEnd,
    LifeSign,
    TrainData,
}

#[derive(Clone, Copy)]
pub struct Message {
    pub header: Header,
    pub body: Body,
}

// What the first byte says of all that follows, where it is a kind that there is.
#[derive(Clone, Copy)]
pub enum Shape {
    // Nothing after the header.
    Bare(Body),
    // Two offsets after the header.
    Offsets,
    // A life sign or train data after the header.
    Payload,
}
