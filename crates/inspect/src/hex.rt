// A line of hexadecimal digits on its way to bytes.
ghost use Rattle.std.specs.Prelude.{◌≡◌, ◌<◌, IfSome};
ghost use Rattle.std.specs.List.{fold};
ghost use Rattle.inspect.specs.Hex.{Progress, blank, nibble_of, fed, with_digit};

use arrayvec::ArrayVec;
use std::marker::Model;

// The most bytes of a line.
pub const ROOM: usize = 256;

// How much of a line has been read. Flags and no Result: `Hex.fed` says how a bad line goes on, and it may have a note too.
#[derive(Default, Drop)]
pub struct Line {
    // The whole bytes so far.
    pub bytes: ArrayVec<u8, ROOM>,
    // The first digit of the next byte, once it has come.
    pub high: Option<u8>,
    // Something else than digits and spaces was met, or too many digits.
    pub bad: bool,
    // A note has begun.
    pub note: bool,
}

impl Model for Line {
    ghost Value = { Progress };

    ghost view = { λ l. record { bytes = l.bytes.items; high = l.high; bad = l.bad; note = l.note } };
}

impl Line {
    // Makes it a line of which nothing has been read. In place, since a new one would be zeroed and moved over it whole.
    pub fn clear(&mut self)
        ensures { self.new ≡ blank }
    {
        self.bytes.clear();
        self.high = None;
        self.bad = false;
        self.note = false;
    }

    // Takes one more character.
    pub fn feed(&mut self, character: u8)
        ensures { self.new ≡ fed self.old character }
    {
        if self.note {
            return;
        }
        match character {
            b'#' => self.note = true,
            b' ' => {}
            _ => self.take_digit(character),
        }
    }

    // Takes characters, one after the other. What stands behind the beginning of a note is not looked at.
    pub fn feed_all(&mut self, characters: &[u8])
        ensures { self.new ≡ fold fed self.old characters.now }
    {
        for &character in characters {
            self.feed(character);
            if self.note {
                break;
            }
        }
    }

    // Takes a digit; what is none spoils the line.
    fn take_digit(&mut self, character: u8)
        ensures { self.new ≡ with_digit self.old (nibble_of character) }
    {
        match (self.high, nibble(character)) {
            (_, None) => self.bad = true,
            (None, low) => self.high = low,
            // Modulo 16, since the type takes any number for a first digit.
            (Some(high), Some(low)) => match self.bytes.try_push(high % 16 * 16 + low) {
                Ok(()) => self.high = None,
                Err(_) => self.bad = true,
            },
        }
    }
}

// The value of a digit.
fn nibble(character: u8) -> Option<u8>
    ensures value { result ≡ nibble_of character }
    ensures small { IfSome result (λ d. d < 16) }
{
    match character {
        b'0'..=b'9' => Some(character - b'0'),
        b'a'..=b'f' => Some(character - b'a' + 10),
        _ => None,
    }
}
