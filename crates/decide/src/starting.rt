// What the messages of the clock start come to, once they are the next ones. End and reading go apart: see lib.rt.
ghost use Rattle.std.specs.Prelude.{◌≡◌, true, false};
ghost use Rattle.rules.specs.Starting.{start_fails, measures, measurement_of, on_start, on_answer1, on_answer2, on_estimate, on_end};

use crate::living::falls;
use judge::clock::{Offset, Offsets, Reading};
use rules::act::{Act, Exchange, Measurement, Swap};
use rules::answer::Answer;
use rules::state::End;
use wire::message::{Body, Header};

pub fn on_start(h: Header) -> Act
    ensures { result ≡ on_start h }
{
    Act::Start(Exchange::Greet(Swap {
        came: h,
        goes: Body::OffsetAnsw1,
    }))
}

// The two answers keep a function each, whose contract is the definition of the law that has its name.
pub fn on_answer1(e: End, at: Reading, h: Header) -> Act
    ensures { result ≡ on_answer1 e at h }
{
    on_answer(e, at, h, Body::OffsetAnsw2, Exchange::Measure)
}

// Kind 4 tells the peer the pair.
pub fn on_answer2(e: End, at: Reading, h: Header) -> Act
    ensures { result ≡ on_answer2 e at h }
{
    let Offsets {
        minimum,
        maximum,
        ..
    } = Offsets::by(h.stamps, at);
    let goes = Body::OffsetEst { minimum, maximum };
    on_answer(e, at, h, goes, Exchange::Estimate)
}

// Either answer measures, if the echo is what was sent and the spread at most W.
fn on_answer<F: FnOnce(Measurement) -> Exchange>(
    e: End,
    at: Reading,
    h: Header,
    goes: Body,
    exchange: F,
) -> Act
    requires { F.IsAlwaysCallable exchange }
    ensures measured { measures e at h ≡ true → (x : Exchange) × F.post exchange (measurement_of h at goes) x × (result ≡ Act.Start x) }
    ensures failed { measures e at h ≡ false → result ≡ start_fails }
{
    let offsets = Offsets::by(h.stamps, at);
    if h.stamps.echo == e.line.offsets.since && offsets.is_narrow(e.settings.spread) {
        let swap = Swap { came: h, goes };
        Act::Start(exchange(Measurement { swap, offsets }))
    } else {
        falls(Answer::StartFailed)
    }
}

// The peer's minimum must be 0 less the own maximum.
pub fn on_estimate(e: End, h: Header, minimum: Offset) -> Act
    ensures { result ≡ on_estimate e h minimum }
{
    if minimum.is_opposed(e.line.offsets.maximum) {
        Act::Start(Exchange::Finish(Swap {
            came: h,
            goes: Body::OffsetEnd,
        }))
    } else {
        falls(Answer::StartFailed)
    }
}

pub fn on_end(h: Header) -> Act
    ensures { result ≡ on_end h }
{
    Act::Start(Exchange::Rise(h))
}
