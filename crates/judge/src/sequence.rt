// Sequence numbers, and what a received one says of the messages before it. Free functions, since a number is a plain u16.
// A difference is the one of the specs by the one fact over the width. The file opens it besides, so that a goal which is false
// is shown to be so by values.
#![tactic(auto, unfolding(crate::specs::Difference::diff))]

ghost use Rattle.std.specs.Prelude.{◌≡◌};
ghost use Rattle.judge.specs.Sequence.{ahead_of, next_of, class_of};

// Half of the numbers.
const HALF: u16 = 1 << 15;

#[derive(Clone, Copy)]
pub enum Class {
    // The next one.
    Expected,
    // Some before it are missing, and few enough.
    Gap,
    // Too many before it are missing.
    Lost,
    // It, or one after it, was accepted before.
    Old,
}

// By how much a received number is ahead of the last one accepted.
#[tactic(auto, using(crate::proofs::Difference::numbers_wrap))]
pub fn ahead(received: u16, last: u16) -> u16
    ensures { result ≡ ahead_of received last }
{
    received.wrapping_sub(last)
}

pub fn is_next(received: u16, last: u16) -> bool
    ensures { result ≡ next_of received last }
{
    ahead(received, last) == 1
}

// What a received number says, where up to `limit` ahead is still a gap.
pub fn classify(received: u16, last: u16, limit: u16) -> Class
    ensures { result ≡ class_of received last limit }
{
    match ahead(received, last) {
        1 => Class::Expected,
        0 | HALF.. => Class::Old,
        d if d <= limit => Class::Gap,
        _ => Class::Lost,
    }
}
