// What the timed run is made of: event 0 is a connect indication, events 1 to 3 are the peer's messages
// of the start, and all others are train data.
ghost use Rattle.std.specs.Prelude.{◌≡◌, ◌≤◌};
ghost use Rattle.receive.specs.Timed.{settings_of, event_at, number_at_turn, span_of, is_datum};

use rules::act::Event;
use rules::effect::Front;
use rules::settings::Settings;
use std::ops::Range;

pub const SETTINGS: Settings = Settings {
    age: 50,
    spread: 20,
    silence: 300,
    life_sign: 100,
    wait: 500,
    retry: 1000,
    jump: 4,
    errors: 2,
};

// A function, since no clause stands at a constant.
pub fn settings() -> Settings
    ensures { result ≡ settings_of }
{
    SETTINGS
}

pub fn event_at(turn: u32) -> Event
    ensures { result ≡ event_at turn }
{
    if turn == 0 {
        Event::Connect
    } else {
        Event::Message
    }
}

// Messages are numbered from 0, and the first comes in turn 1.
// No `saturating_sub`: with it a message takes 101 instructions, and so 94.
pub fn number_at(turn: u32) -> u16
    ensures { result ≡ number_at_turn turn }
{
    if turn == 0 {
        0
    } else {
        ((turn - 1) % 65536) as u16
    }
}

// Where the bytes of a turn stand in the input: three messages of 15 bytes, then the one with train data.
pub fn span_of(turn: u32) -> Range<usize>
    ensures span { result ≡ span_of turn }
    ensures order { result.start ≤ result.end }
    ensures room { result.end ≤ 81 }
{
    match turn {
        0 | 1 => 0..15,
        2 => 15..30,
        3 => 30..45,
        _ => 45..81,
    }
}

pub fn is_datum(front: Front) -> bool
    ensures { result ≡ is_datum front }
{
    matches!(front, Front::Datum(_))
}
