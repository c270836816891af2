// What a tick and the user's data come to. End and reading go apart: see lib.rt.
ghost use Rattle.std.specs.Prelude.{◌≡◌};
ghost use Rattle.rules.specs.State.{phase_of};
ghost use Rattle.rules.specs.Speaking.{life_sign_due, on_up_tick, on_up_data, on_tick, on_data};

use crate::living::{on_idle_tick, phase_of};
use judge::clock::Reading;
use queue::PLACES;
use rules::act::{Act, Speech};
use rules::answer::Answer;
use rules::state::{End, Phase};
use store::waiting;
use wire::message::LONGEST;

pub fn on_tick(e: End, at: Reading) -> Act
    ensures { result ≡ on_tick (phase_of e.life) e at }
{
    match phase_of(e.life) {
        Phase::Idle => on_idle_tick(e, at),
        Phase::Starting => Act::Note(Answer::Handled),
        Phase::Up => on_up_tick(e, at),
    }
}

pub fn on_data(e: End, n: usize) -> Act
    ensures { result ≡ on_data (phase_of e.life) e n }
{
    match phase_of(e.life) {
        Phase::Idle | Phase::Starting => Act::Note(Answer::NoRule),
        Phase::Up => on_up_data(e, n),
    }
}

// Whether S ticks have passed since the last kind 6 went.
fn is_life_sign_due(e: End, at: Reading) -> bool
    ensures { result ≡ life_sign_due e at }
{
    at.has_passed(e.line.times.said, e.settings.life_sign)
}

// The oldest that waits, or a life sign after S ticks, or nothing.
fn on_up_tick(e: End, at: Reading) -> Act
    ensures { result ≡ on_up_tick e at }
{
    Act::Say(if waiting(e.ring) != 0 {
        Speech::Drain
    } else if is_life_sign_due(e, at) {
        Speech::Beat
    } else {
        Speech::Quiet
    })
}

// At once, if no kind 6 has gone since the last tick; else they wait.
fn on_up_data(e: End, n: usize) -> Act
    ensures { result ≡ on_up_data e n }
{
    if !(1..=LONGEST).contains(&n) {
        Act::Note(Answer::BadLength)
    } else if !e.line.busy {
        Act::Say(Speech::Speak)
    } else if waiting(e.ring) < PLACES {
        Act::Say(Speech::Hold)
    } else {
        Act::Note(Answer::QueueFull)
    }
}
