// A connection is asked for, accepted, lost or ended.
ghost use Rattle.std.specs.Prelude.{◌≡◌};
ghost use Rattle.rules.specs.Connecting.{falling};
ghost use Rattle.rules.specs.Connecting.{moved as moved_by};
ghost use Rattle.rules.specs.declared.act.ConnectionMove.TheVariants.{Ask, Accept};

use crate::end::{asked_end, fallen_end, greeted_end, no_flags, quietly, was_up};
use rules::act::ConnectionMove;
use rules::answer::Answer;
use rules::effect::{Effect, Flags};
use rules::state::End;

pub fn moved(e: End, m: ConnectionMove) -> Effect
    ensures { result ≡ moved_by e m e.reading }
{
    match m {
        ConnectionMove::Ask => ask(e),
        ConnectionMove::Accept => accept(e),
        ConnectionMove::Lose => fall(e, Answer::Handled, false, false),
        ConnectionMove::Fall { answer, error } => fall(e, answer, error, true),
    }
}

fn ask(e: End) -> Effect
    ensures { result ≡ moved_by e Ask e.reading }
{
    Effect {
        flags: Flags {
            ask: true,
            ..no_flags()
        },
        ..quietly(asked_end(e, e.reading), Answer::Handled)
    }
}

// Any connection before is over: down if it was Up.
fn accept(e: End) -> Effect
    ensures { result ≡ moved_by e Accept e.reading }
{
    Effect {
        flags: Flags {
            accept: true,
            down: was_up(e),
            ..no_flags()
        },
        ..quietly(greeted_end(e, e.reading), Answer::Handled)
    }
}

// Down if it was Up, after an error report and a release where these are due.
fn fall(e: End, answer: Answer, error: bool, release: bool) -> Effect
    ensures { result ≡ falling e e.reading answer error release }
{
    Effect {
        flags: Flags {
            error,
            release,
            down: was_up(e),
            ..no_flags()
        },
        ..quietly(fallen_end(e, e.reading), answer)
    }
}
