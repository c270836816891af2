// What an event comes to. The order of the tests is the order of the answers. End and reading go apart: see lib.rt.
ghost use Rattle.std.specs.Prelude.{◌≡◌};
ghost use Rattle.rules.specs.Decide.{on_event, decide_of};

use crate::hearing::on_message;
use crate::living::{falls, is_overdue, on_confirm, on_connect, on_disconnect, phase_of};
use crate::speaking::{on_data, on_tick};
use judge::clock::Reading;
use rules::act::{Act, Event};
use rules::answer::Answer;
use rules::effect::ROOM;
use rules::state::End;

#[tactic(auto, unfolding(rules::specs::Decide::decide_of))]
pub fn decide(e: End, event: Event, at: Reading, bytes: &[u8], room: usize) -> Act
    ensures { result ≡ decide_of e event at bytes.now room }
{
    if room < ROOM {
        Act::Stay(Answer::NoRoom)
    } else if at.went_back(e.reading) {
        Act::Stay(Answer::ClockBack)
    } else {
        on_event(e, event, at, bytes)
    }
}

#[tactic(auto, unfolding(rules::specs::Decide::on_event))]
fn on_event(e: End, event: Event, at: Reading, bytes: &[u8]) -> Act
    ensures { result ≡ on_event e event at bytes.now }
{
    match event {
        Event::Connect => on_connect(e.role),
        Event::Disconnect => on_disconnect(phase_of(e.life)),
        // All others are judged only while the end is not overdue.
        _ if is_overdue(e, at) => falls(Answer::Silent),
        Event::Tick => on_tick(e, at),
        Event::Confirm => on_confirm(e.life),
        Event::Data => on_data(e, bytes.len()),
        Event::Message => on_message(e, at, bytes),
    }
}
