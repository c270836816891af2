// How an end begins.
ghost use Rattle.std.specs.Prelude.{◌≡◌};
ghost use Rattle.rules.specs.Claims.{MakePromise};
ghost use Rattle.rules.specs.Make.{fresh_end};

use crate::settings::in_range;
use judge::clock::Reading;
use perform::end::asks_at_once;
use perform::line::blank_line;
use rules::answer::Answer;
use rules::settings::Settings;
use rules::state::{Asking, End, Life, Role};

// A fresh end, or answer 1 where a setting is out of range. Role, reading and settings go apart, as `MakePromise` names them.
pub fn make(role: Role, at: Reading, settings: Settings) -> Result<End, Answer>
    ensures { MakePromise role at settings result }
{
    if in_range(settings) {
        Ok(fresh_end(role, at, settings))
    } else {
        Err(Answer::OutOfRange)
    }
}

fn fresh_end(role: Role, at: Reading, settings: Settings) -> End
    ensures { result ≡ fresh_end role at settings }
{
    End {
        settings,
        line: blank_line(),
        reading: at,
        asking: Asking {
            when: Reading(0),
            at_once: asks_at_once(role),
        },
        ring: store::empty(),
        role,
        life: Life::Idle,
    }
}
