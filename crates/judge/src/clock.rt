// Clock readings, offsets between two clocks, and what is judged from them.
// A difference is the one of the specs by the one fact over the width. The file opens it besides, so that a goal which is false
// is shown to be so by values.
#![tactic(auto, unfolding(crate::specs::Difference::diff))]

ghost use Rattle.std.specs.Prelude.{◌≡◌};
ghost use Rattle.judge.specs.Clock.{since_of, back_of, passed_of, offset_of, opposed_of, offsets_by, spread_of, narrow_of, age_of, fresh_of};

// Half of the readings.
const HALF: u32 = 1 << 31;

// What one clock shows, in ticks. It wraps.
#[derive(Clone, Copy, Default, PartialEq, Eq)]
pub struct Reading(pub u32);

impl Reading {
    // The ticks from `then` to this.
    #[tactic(auto, using(crate::proofs::Difference::readings_wrap))]
    pub fn since(self, then: Reading) -> u32
        ensures { result ≡ since_of self then }
    {
        self.0.wrapping_sub(then.0)
    }

    // Whether a clock that showed `last` went back when it shows this: whether this is half the range
    // or more past it.
    pub fn went_back(self, last: Reading) -> bool
        ensures { result ≡ back_of self last }
    {
        HALF <= self.since(last)
    }

    // Whether `limit` ticks or more have passed from `then` to this.
    pub fn has_passed(self, then: Reading, limit: u32) -> bool
        ensures { result ≡ passed_of self then limit }
    {
        limit <= self.since(then)
    }
}

// By how much one clock is ahead of another, in ticks. It wraps, and it is no reading.
#[derive(Clone, Copy, Default, PartialEq, Eq)]
pub struct Offset(pub u32);

impl Offset {
    // An own reading less one of the peer's.
    #[tactic(auto, using(crate::proofs::Difference::readings_wrap))]
    pub fn between(own: Reading, peer: Reading) -> Offset
        ensures { result ≡ offset_of own peer }
    {
        Offset(own.0.wrapping_sub(peer.0))
    }

    // Whether this is 0 less the other.
    #[tactic(auto, using(crate::proofs::Difference::offset_wraps))]
    pub fn is_opposed(self, other: Offset) -> bool
        ensures { result ≡ opposed_of self other }
    {
        self.0 == other.0.wrapping_neg()
    }
}

// The time stamps of a message, all readings.
#[derive(Clone, Copy)]
pub struct Stamps {
    // The sender's when it sent this.
    pub sent: Reading,
    // The receiver's own, out of the last message that the sender accepted.
    pub echo: Reading,
    // The sender's when it accepted that message.
    pub receipt: Reading,
}

// Two bounds of how far the own clock is ahead of the peer's, and the own reading that began them.
#[derive(Clone, Copy, Default)]
pub struct Offsets {
    pub minimum: Offset,
    pub maximum: Offset,
    pub since: Reading,
}

impl Offsets {
    // The pair that a message with these stamps gives when it comes at `now`.
    pub fn by(stamps: Stamps, now: Reading) -> Offsets
        ensures { result ≡ offsets_by stamps now }
    {
        Offsets {
            minimum: Offset::between(stamps.echo, stamps.receipt),
            maximum: Offset::between(now, stamps.sent),
            since: stamps.echo,
        }
    }

    // By how much the pair may be wrong.
    #[tactic(auto, using(crate::proofs::Difference::readings_wrap))]
    pub fn spread(self) -> u32
        ensures { result ≡ spread_of self }
    {
        self.maximum.0.wrapping_sub(self.minimum.0)
    }

    // Whether the spread is at most `limit`.
    pub fn is_narrow(self, limit: u32) -> bool
        ensures { result ≡ narrow_of self limit }
    {
        self.spread() <= limit
    }

    // How old a message may be at the most that left the peer at its reading `sent` and is here at `now`.
    #[tactic(auto, using(crate::proofs::Difference::readings_wrap))]
    pub fn age(self, now: Reading, sent: Reading) -> u32
        ensures { result ≡ age_of now sent self }
    {
        now.0.wrapping_sub(sent.0).wrapping_sub(self.minimum.0)
    }

    // Whether that age is at most `limit`.
    pub fn is_fresh(self, now: Reading, sent: Reading, limit: u32) -> bool
        ensures { result ≡ fresh_of now sent self limit }
    {
        self.age(now, sent) <= limit
    }
}
