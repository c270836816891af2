// Hearing and saying while Up.
ghost use Rattle.std.specs.Prelude.{◌≡◌};
ghost use Rattle.rules.specs.Talking.{longer, speaking};
ghost use Rattle.rules.specs.Talking.{heard as heard_by, said as said_by};
ghost use Rattle.rules.specs.declared.act.Verdict.TheVariants.{Deliver, Report};
ghost use Rattle.rules.specs.declared.act.Speech.TheVariants.{Quiet, Beat, Speak, Drain, Hold};

use crate::end::{error_flag, quietly};
use crate::exchanging::message;
use crate::line::{accepted, delivered, sent, spoken, with_busy, with_failures};
use queue::Ring;
use rules::act::{Delivery, Speech, Verdict};
use rules::answer::Answer;
use rules::effect::{Effect, Placing};
use rules::state::End;
use store::{waiting, without_oldest};
use wire::message::Body;

pub fn heard(e: End, v: Verdict) -> Effect
    ensures { result ≡ heard_by e v e.reading }
{
    match v {
        Verdict::Deliver(d) => deliver(e, d),
        Verdict::Report { answer, failures } => report(e, answer, failures),
    }
}

// Train data go to the user, life signs to nobody. Where messages are missing before it, that is reported.
fn deliver(e: End, d: Delivery) -> Effect
    ensures { result ≡ heard_by e (Deliver d) e.reading }
{
    let gap = d.skipped != 0;
    let line = delivered(accepted(e.line, d.header, e.reading), e.reading);
    Effect {
        end: End { line, ..e },
        placing: if d.train {
            Placing::Deliver
        } else {
            Placing::Nothing
        },
        flags: error_flag(gap),
        answer: if gap { Answer::Gap } else { Answer::Handled },
    }
}

fn report(e: End, answer: Answer, failures: u8) -> Effect
    ensures { result ≡ heard_by e (Report answer failures) e.reading }
{
    let line = with_failures(e.line, failures);
    Effect {
        flags: error_flag(true),
        ..quietly(End { line, ..e }, answer)
    }
}

pub fn said(e: End, s: Speech) -> Effect
    ensures { result ≡ said_by e s e.reading }
{
    match s {
        Speech::Quiet => keep_quiet(e),
        Speech::Beat => beat(e),
        Speech::Speak => speak(e),
        Speech::Drain => drain(e),
        Speech::Hold => hold(e),
    }
}

// A kind 6 goes out.
fn say(e: End, placing: Placing) -> Effect
    ensures { result ≡ speaking e e.reading e.ring placing }
{
    let end = End {
        line: sent(spoken(e.line, e.reading)),
        ..e
    };
    Effect {
        placing,
        ..quietly(end, Answer::Handled)
    }
}

fn keep_quiet(e: End) -> Effect
    ensures { result ≡ said_by e Quiet e.reading }
{
    let line = with_busy(e.line, false);
    quietly(End { line, ..e }, Answer::Handled)
}

fn beat(e: End) -> Effect
    ensures { result ≡ said_by e Beat e.reading }
{
    say(e, Placing::Send(message(e, Body::LifeSign)))
}

fn speak(e: End) -> Effect
    ensures { result ≡ said_by e Speak e.reading }
{
    say(e, Placing::SendUser(message(e, Body::TrainData)))
}

fn drain(e: End) -> Effect
    ensures { result ≡ said_by e Drain e.reading }
{
    let placing = Placing::SendOldest {
        message: message(e, Body::TrainData),
        ring: e.ring,
    };
    let end = End {
        ring: without_oldest(e.ring),
        ..e
    };
    say(end, placing)
}

// The ring with one more at its end.
fn longer_of(ring: Ring) -> Ring
    ensures { result ≡ longer ring }
{
    Ring {
        count: waiting(ring) + 1,
        ..ring
    }
}

fn hold(e: End) -> Effect
    ensures { result ≡ said_by e Hold e.reading }
{
    let end = End {
        ring: longer_of(e.ring),
        ..e
    };
    Effect {
        placing: Placing::Store(e.ring),
        ..quietly(end, Answer::Handled)
    }
}
