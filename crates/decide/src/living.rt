// The life of a connection: how long a state may last, and what indications, confirms and an Idle end's
// ticks come to. End and reading go apart: see lib.rt.
ghost use Rattle.std.specs.Prelude.{◌≡◌, false, cond, eqb};
ghost use Rattle.rules.specs.State.{phase_of, awaited_by};
ghost use Rattle.rules.specs.Living.{overdue, on_connect, on_disconnect, on_confirm, may_ask, on_idle_tick};

use codec::kind::kind_of;
use judge::clock::{Offset, Reading};
use rules::act::{Act, ConnectionMove, Exchange};
use rules::answer::Answer;
use rules::state::{End, Life, Phase, Role};
use wire::message::Body;

pub fn phase_of(life: Life) -> Phase
    ensures { result ≡ phase_of life }
{
    match life {
        Life::Idle => Phase::Idle,
        Life::Calling
        | Life::Opening
        | Life::Settling
        | Life::Greeted
        | Life::Answering
        | Life::Closing => Phase::Starting,
        Life::Up => Phase::Up,
    }
}

// The kind of message that a life waits for. Where it waits for none, the law's number is 0, which is no kind.
pub fn awaited(life: Life) -> Option<u8>
    ensures { result ≡ cond (eqb (awaited_by life) 0) None (Some (awaited_by life)) }
{
    let body = match life {
        Life::Idle | Life::Calling => return None,
        Life::Opening => Body::OffsetAnsw1,
        // Every estimate is of one kind.
        Life::Settling => Body::OffsetEst {
            minimum: Offset(0),
            maximum: Offset(0),
        },
        Life::Greeted => Body::OffsetStart,
        Life::Answering => Body::OffsetAnsw2,
        Life::Closing => Body::OffsetEnd,
        Life::Up => Body::LifeSign,
    };
    Some(kind_of(body))
}

// Whether the peer has been silent for too long, or the start takes too long.
pub fn is_overdue(e: End, at: Reading) -> bool
    ensures { result ≡ overdue e at }
{
    match phase_of(e.life) {
        Phase::Idle => false,
        Phase::Starting => at.has_passed(e.line.began, e.settings.wait),
        Phase::Up => at.has_passed(e.line.times.heard, e.settings.silence),
    }
}

// Down with no error report.
pub fn falls(answer: Answer) -> Act
    ensures { result ≡ Act.Move (ConnectionMove.Fall answer false) }
{
    Act::Move(ConnectionMove::Fall {
        answer,
        error: false,
    })
}

pub fn on_connect(role: Role) -> Act
    ensures { result ≡ on_connect role }
{
    match role {
        Role::Initiator => Act::Note(Answer::NoRule),
        Role::Called => Act::Move(ConnectionMove::Accept),
    }
}

pub fn on_disconnect(now: Phase) -> Act
    ensures { result ≡ on_disconnect now }
{
    match now {
        Phase::Idle => Act::Note(Answer::NoRule),
        Phase::Starting | Phase::Up => Act::Move(ConnectionMove::Lose),
    }
}

pub fn on_confirm(life: Life) -> Act
    ensures { result ≡ on_confirm life }
{
    match life {
        Life::Calling => Act::Start(Exchange::Begin(Body::OffsetStart)),
        Life::Idle
        | Life::Opening
        | Life::Settling
        | Life::Greeted
        | Life::Answering
        | Life::Closing
        | Life::Up => Act::Note(Answer::NoRule),
    }
}

// Whether it may ask at once, or C ticks have passed since it last asked.
fn may_ask(e: End, at: Reading) -> bool
    ensures { result ≡ may_ask e at }
{
    e.asking.at_once || at.has_passed(e.asking.when, e.settings.retry)
}

pub fn on_idle_tick(e: End, at: Reading) -> Act
    ensures { result ≡ on_idle_tick e.role e at }
{
    // From a local, as role and life are to be matched (docs/DECISIONS.md, "Forms of the code that were asked for").
    let role = e.role;
    match role {
        Role::Initiator if may_ask(e, at) => Act::Move(ConnectionMove::Ask),
        Role::Initiator | Role::Called => Act::Note(Answer::Handled),
    }
}
