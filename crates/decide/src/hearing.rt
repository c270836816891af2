// What a message comes to. End and reading go apart: see lib.rt.
ghost use Rattle.std.specs.Prelude.{◌≡◌};
ghost use Rattle.wire.specs.Message.{parse};
ghost use Rattle.rules.specs.Hearing.{on_failure, delivery_of, on_age, on_awaited, on_up_message, on_message};

use crate::living::{awaited, falls};
use crate::starting::{on_answer1, on_answer2, on_end, on_estimate, on_start};
use codec::kind::kind_of;
use codec::reading::read_message;
use judge::clock::Reading;
use judge::sequence::{Class, ahead, classify, is_next};
use rules::act::{Act, ConnectionMove, Delivery, Verdict};
use rules::answer::Answer;
use rules::state::End;
use wire::message::{Body, Header, Message};

pub fn on_message(e: End, at: Reading, bytes: &[u8]) -> Act
    ensures { result ≡ on_message e at (parse bytes.now) }
{
    let Some(due) = awaited(e.life) else {
        return Act::Note(Answer::NoRule);
    };
    let Some(Message { header, body }) = read_message(bytes) else {
        return Act::Note(Answer::Malformed);
    };
    if kind_of(body) == due {
        on_awaited(e, at, header, body)
    } else {
        Act::Note(Answer::NotAwaited)
    }
}

// The awaited kind has come.
fn on_awaited(e: End, at: Reading, h: Header, body: Body) -> Act
    ensures { result ≡ on_awaited e at h body }
{
    let act = match body {
        Body::OffsetStart => on_start(h),
        Body::OffsetAnsw1 => on_answer1(e, at, h),
        Body::OffsetAnsw2 => on_answer2(e, at, h),
        Body::OffsetEst { minimum, .. } => on_estimate(e, h, minimum),
        Body::OffsetEnd => on_end(h),
        Body::LifeSign => return on_up_message(e, at, h, false),
        Body::TrainData => return on_up_message(e, at, h, true),
    };
    // A starting message must be the next one.
    if is_next(h.number, e.line.numbers.last) {
        act
    } else {
        Act::Note(Answer::NotAwaited)
    }
}

// The number is judged before the age.
fn on_up_message(e: End, at: Reading, h: Header, train: bool) -> Act
    ensures { result ≡ on_up_message e at h train }
{
    match classify(h.number, e.line.numbers.last, e.settings.jump) {
        Class::Expected | Class::Gap => on_age(e, at, h, train),
        Class::Lost => falls(Answer::Lost),
        Class::Old => on_failure(e, Answer::Old),
    }
}

fn on_age(e: End, at: Reading, h: Header, train: bool) -> Act
    ensures { result ≡ on_age e at h train }
{
    if e.line.offsets.is_fresh(at, h.stamps.sent, e.settings.age) {
        Act::Hear(Verdict::Deliver(delivery_of(e, at, h, train)))
    } else {
        on_failure(e, Answer::Late)
    }
}

fn delivery_of(e: End, at: Reading, h: Header, train: bool) -> Delivery
    ensures { result ≡ delivery_of e at h train }
{
    Delivery {
        header: h,
        age: e.line.offsets.age(at, h.stamps.sent),
        skipped: ahead(h.number, e.line.numbers.last).saturating_sub(1),
        train,
    }
}

// One more failure: an error report, and at E of them down.
fn on_failure(e: End, answer: Answer) -> Act
    ensures { result ≡ on_failure e answer }
{
    match e.line.failures.checked_add(1) {
        Some(failures) if failures < e.settings.errors => Act::Hear(Verdict::Report {
            answer,
            failures,
        }),
        _ => Act::Move(ConnectionMove::Fall {
            answer,
            error: true,
        }),
    }
}
