// One event.
ghost use Rattle.rules.specs.Claims.{StepPromise};

use crate::place::place;
use decide::decide::decide;
use judge::clock::Reading;
use perform::perform::perform;
use queue::BYTES;
use rules::act::Event;
use rules::effect::Outcome;
use rules::state::End;

// Takes one event, at a reading of the own clock. `given` are the bytes of user data or of a message,
// and other events pass over them. What the end gives out stands at the front of `out`, and `q` holds
// the user's data that wait.
#[tactic(auto, using(rules::proofs::Readiness::effect_ready), unfolding(rules::specs::Step::effect_of, rules::specs::Step::stepped))]
pub fn step(
    e: End,
    event: Event,
    at: Reading,
    given: &[u8],
    out: &mut [u8],
    q: &mut [u8; BYTES],
) -> Outcome
    ensures { StepPromise e event at given.now out.old q.old (record { outcome = result; out = out.new; queue = q.new }) }
{
    let effect = perform(e, decide(e, event, at, given, out.len()), at);
    Outcome {
        end: effect.end,
        front: place(effect.placing, given, out, q),
        flags: effect.flags,
        answer: effect.answer,
    }
}
