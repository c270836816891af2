// The messages of the clock start go out, and lives begin.
ghost use Rattle.std.specs.Prelude.{◌≡◌};
ghost use Rattle.rules.specs.Ends.{moved_end, no_flags};
ghost use Rattle.rules.specs.Line.{accepted_line, risen_line};
ghost use Rattle.rules.specs.Exchanging.{message_by, sending, measured_line};
ghost use Rattle.rules.specs.Exchanging.{started as started_by};
ghost use Rattle.rules.specs.declared.act.Exchange.TheVariants.{Begin, Greet, Finish, Rise};

use crate::end::{quietly, up_flag};
use crate::line::{accepted, header, posted, risen, sent, with_began, with_offsets};
use rules::act::{Exchange, Measurement, Swap};
use rules::answer::Answer;
use rules::effect::{Effect, Placing};
use rules::state::{End, Life};
use wire::message::{Body, Header, Message};

pub fn started(e: End, x: Exchange) -> Effect
    ensures { result ≡ started_by e x e.reading }
{
    match x {
        Exchange::Begin(goes) => begin(e, goes),
        Exchange::Greet(s) => greet(e, s),
        Exchange::Measure(m) => measure(e, Life::Settling, m),
        Exchange::Estimate(m) => measure(e, Life::Closing, m),
        Exchange::Finish(s) => finish(e, s),
        Exchange::Rise(h) => rise(e, h),
    }
}

// A message that goes out now.
pub fn message(e: End, body: Body) -> Message
    ensures { result ≡ message_by e.line e.reading body }
{
    Message {
        header: header(e.line, e.reading),
        body,
    }
}

// A message of the start goes out from an end whose life has begun.
fn send(e: End, body: Body) -> Effect
    ensures { result ≡ sending e e.reading e.life e.line body no_flags }
{
    let end = End {
        line: sent(e.line),
        ..e
    };
    Effect {
        placing: Placing::Send(message(e, body)),
        ..quietly(end, Answer::Handled)
    }
}

fn begin(e: End, goes: Body) -> Effect
    ensures { result ≡ started_by e (Begin goes) e.reading }
{
    let line = posted(with_began(e.line, e.reading), e.reading);
    send(
        End {
            line,
            life: Life::Opening,
            ..e
        },
        goes,
    )
}

fn greet(e: End, s: Swap) -> Effect
    ensures { result ≡ started_by e (Greet s) e.reading }
{
    let line = posted(accepted(e.line, s.came, e.reading), e.reading);
    send(
        End {
            line,
            life: Life::Answering,
            ..e
        },
        s.goes,
    )
}

fn measure(e: End, life: Life, m: Measurement) -> Effect
    ensures { result ≡ sending e e.reading life (measured_line e.line m e.reading) m.swap.goes no_flags }
{
    let line = with_offsets(accepted(e.line, m.swap.came, e.reading), m.offsets);
    send(End { line, life, ..e }, m.swap.goes)
}

// The end comes Up, with the message that came last.
fn risen_end(e: End, came: Header) -> End
    ensures { result ≡ moved_end e e.reading Life.Up (risen_line (accepted_line e.line came e.reading) e.reading) e.ring }
{
    End {
        line: risen(accepted(e.line, came, e.reading), e.reading),
        life: Life::Up,
        ..e
    }
}

fn finish(e: End, s: Swap) -> Effect
    ensures { result ≡ started_by e (Finish s) e.reading }
{
    Effect {
        flags: up_flag(),
        ..send(risen_end(e, s.came), s.goes)
    }
}

fn rise(e: End, h: Header) -> Effect
    ensures { result ≡ started_by e (Rise h) e.reading }
{
    Effect {
        flags: up_flag(),
        ..quietly(risen_end(e, h), Answer::Handled)
    }
}
