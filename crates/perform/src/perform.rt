// What follows from an act, but for its bytes.
ghost use Rattle.std.specs.Prelude.{◌≡◌};
ghost use Rattle.rules.specs.Perform.{performed};

use crate::connecting::moved;
use crate::end::{noted_end, quietly};
use crate::exchanging::started;
use crate::talking::{heard, said};
use judge::clock::Reading;
use rules::act::Act;
use rules::effect::Effect;
use rules::state::End;

#[tactic(auto, unfolding(rules::specs::Perform::performed))]
pub fn perform(e: End, act: Act, at: Reading) -> Effect
    ensures { result ≡ performed e act at }
{
    // End and reading come apart, since this is public and Stay keeps the old one. All other acts keep the new reading: so the
    // rooms are given the end that holds it, and `e.reading` is now.
    let noted = noted_end(e, at);
    match act {
        Act::Stay(answer) => quietly(e, answer),
        Act::Note(answer) => quietly(noted, answer),
        Act::Move(m) => moved(noted, m),
        Act::Start(x) => started(noted, x),
        Act::Hear(v) => heard(noted, v),
        Act::Say(s) => said(noted, s),
    }
}
