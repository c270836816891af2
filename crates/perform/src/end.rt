// The end afterwards, and what is reported. Functions and no methods, since `rules` holds types alone. They are public, so
// those that `Default` says stay, and take end and reading apart, as the law's do; in the files above them an end has
// taken the reading.
ghost use Rattle.std.specs.Prelude.{◌≡◌};
ghost use Rattle.queue.specs.Ring.{empty_ring};
ghost use Rattle.rules.specs.Make.{asks_at_once};
ghost use Rattle.rules.specs.Perform.{quietly};
ghost use Rattle.rules.specs.State.{new_line};
ghost use Rattle.rules.specs.Ends.{was_up, moved_end, noted_end, asked_end, fallen_end, no_flags, error_flag, up_flag};

use crate::line::{blank_line, new_line};
use judge::clock::Reading;
use queue::Ring;
use rules::answer::Answer;
use rules::effect::{Effect, Flags, Placing};
use rules::state::{Asking, End, Life, Line, Role};

pub fn was_up(e: End) -> bool
    ensures { result ≡ was_up e }
{
    // A local: a life is matched from one.
    let life = e.life;
    matches!(life, Life::Up)
}

pub fn asks_at_once(role: Role) -> bool
    ensures { result ≡ asks_at_once role }
{
    matches!(role, Role::Initiator)
}

// Another life, line and queue. Role and settings never change.
pub fn moved_end(e: End, at: Reading, life: Life, line: Line, ring: Ring) -> End
    ensures { result ≡ moved_end e at life line ring }
{
    End {
        line,
        reading: at,
        ring,
        life,
        ..e
    }
}

// The new reading, and nothing else.
pub fn noted_end(e: End, at: Reading) -> End
    ensures { result ≡ noted_end e at }
{
    End { reading: at, ..e }
}

// A new connection is asked for, which ends asking at once.
pub fn asked_end(e: End, at: Reading) -> End
    ensures { result ≡ asked_end e at }
{
    End {
        asking: Asking {
            when: at,
            at_once: false,
        },
        ..moved_end(e, at, Life::Calling, new_line(at), store::empty())
    }
}

// A new connection is accepted, with nothing of one before.
pub fn greeted_end(e: End, at: Reading) -> End
    ensures { result ≡ moved_end e at Life.Greeted (new_line at) empty_ring }
{
    moved_end(e, at, Life::Greeted, new_line(at), store::empty())
}

// Idle, with nothing of the connection. An initiator that was Up may ask at once.
pub fn fallen_end(e: End, at: Reading) -> End
    ensures { result ≡ fallen_end e at }
{
    End {
        asking: Asking {
            at_once: e.asking.at_once || was_up(e) && asks_at_once(e.role),
            ..e.asking
        },
        ..moved_end(e, at, Life::Idle, blank_line(), store::empty())
    }
}

pub fn no_flags() -> Flags
    ensures { result ≡ no_flags }
{
    Flags::default()
}

pub fn error_flag(error: bool) -> Flags
    ensures { result ≡ error_flag error }
{
    Flags {
        error,
        ..no_flags()
    }
}

pub fn up_flag() -> Flags
    ensures { result ≡ up_flag }
{
    Flags {
        up: true,
        ..no_flags()
    }
}

// An end and an answer, with no report and nothing given out.
pub(crate) fn quietly(end: End, answer: Answer) -> Effect
    ensures { result ≡ quietly end answer }
{
    Effect {
        end,
        placing: Placing::Nothing,
        flags: no_flags(),
        answer,
    }
}
