// How a connection's numbers, stamps and times change.
//
// A line is made anew and not stored into: a struct that is stored into is moved in pieces of eight bytes.
//
// Functions and no methods: an inherent impl has to stand in the crate of its type, and `rules` holds types alone. They take
// the reading beside the line, since a line holds none. All are public, so those that `Default` or struct update says stay.
ghost use Rattle.std.specs.Prelude.{◌≡◌};
ghost use Rattle.rules.specs.State.{blank_line, new_line};
ghost use Rattle.rules.specs.Line.{with_offsets, with_began, with_failures, with_busy, accepted_line, posted_line, sent_line, risen_line, delivered_line, spoken_line, header_by};

use judge::clock::{Offsets, Reading, Stamps};
use rules::state::{Echo, Line, Numbers, Times};
use wire::message::Header;

// What an Idle end holds of a connection: all zeros.
pub fn blank_line() -> Line
    ensures { result ≡ blank_line }
{
    Line::default()
}

// A connection that begins now. The number before the first counts as accepted.
pub fn new_line(at: Reading) -> Line
    ensures { result ≡ new_line at }
{
    Line {
        began: at,
        numbers: Numbers {
            next: 0,
            last: u16::MAX,
        },
        ..Line::default()
    }
}

// The pair that was measured. This and the next three are public, and so stay beside struct update.
pub fn with_offsets(line: Line, offsets: Offsets) -> Line
    ensures { result ≡ with_offsets line offsets }
{
    Line { offsets, ..line }
}

// The wait restarts.
pub fn with_began(line: Line, began: Reading) -> Line
    ensures { result ≡ with_began line began }
{
    Line { began, ..line }
}

pub fn with_failures(line: Line, failures: u8) -> Line
    ensures { result ≡ with_failures line failures }
{
    Line { failures, ..line }
}

pub fn with_busy(line: Line, busy: bool) -> Line
    ensures { result ≡ with_busy line busy }
{
    Line { busy, ..line }
}

// A message was accepted: its number is the last, and its stamps are to be echoed.
pub fn accepted(line: Line, h: Header, at: Reading) -> Line
    ensures { result ≡ accepted_line line h at }
{
    Line {
        echo: Echo {
            peer: h.stamps.sent,
            own: at,
        },
        numbers: Numbers {
            last: h.number,
            ..line.numbers
        },
        ..line
    }
}

// The measuring begins with a message that goes out now.
pub fn posted(line: Line, at: Reading) -> Line
    ensures { result ≡ posted_line line at }
{
    Line {
        offsets: Offsets {
            since: at,
            ..line.offsets
        },
        ..line
    }
}

// A message has taken the next number.
pub fn sent(line: Line) -> Line
    ensures { result ≡ sent_line line }
{
    Line {
        numbers: Numbers {
            next: line.numbers.next.wrapping_add(1),
            ..line.numbers
        },
        ..line
    }
}

// The end has come Up.
pub fn risen(line: Line, at: Reading) -> Line
    ensures { result ≡ risen_line line at }
{
    Line {
        times: Times {
            said: at,
            heard: at,
        },
        failures: 0,
        busy: false,
        ..line
    }
}

// A message was delivered while Up.
pub fn delivered(line: Line, at: Reading) -> Line
    ensures { result ≡ delivered_line line at }
{
    Line {
        times: Times {
            heard: at,
            ..line.times
        },
        failures: 0,
        ..line
    }
}

// A kind 6 goes.
pub fn spoken(line: Line, at: Reading) -> Line
    ensures { result ≡ spoken_line line at }
{
    Line {
        times: Times {
            said: at,
            ..line.times
        },
        busy: true,
        ..line
    }
}

// The header of a message that goes out now.
pub fn header(line: Line, at: Reading) -> Header
    ensures { result ≡ header_by line at }
{
    Header {
        stamps: Stamps {
            sent: at,
            echo: line.echo.peer,
            receipt: line.echo.own,
        },
        number: line.numbers.next,
    }
}
