// The records of a script. Here alone stand the numbers of their kinds.
ghost use Rattle.std.specs.Prelude.{◌≡◌, get_or};
ghost use Rattle.script.specs.Forms.{form_of, size_in, record_bytes, record_in};
ghost use Rattle.script.specs.Record.{settings_in, make_in, plain_in, lengthy_in, given_in};
ghost use Rattle.player.specs.Kinds.{form_as};

use crate::part::first;
use codec::number::{bytes_from, read};
use judge::clock::Reading;
use rules::act::Event;
use rules::settings::Settings;
use rules::state::Role;
use script::record::{DATA_FIELD, MESSAGE_FIELD, Record, Span};

// What stands behind the byte of kind.
#[derive(Clone, Copy)]
pub enum Kind {
    // Role, reading and settings.
    Make,
    // A reading.
    Plain(Event),
    // A reading, a length of one byte, and a field of so many bytes.
    Lengthy(Event, u8),
}

impl Kind {
    // The length of a whole record.
    fn size(self) -> usize
        ensures { result ≡ (form_as (Some self)).whole }
    {
        match self {
            Kind::Make => 33,
            Kind::Plain(_) => 5,
            Kind::Lengthy(_, field) => 6 + usize::from(field),
        }
    }

    // What the bytes of a whole record say.
    fn read(self, s: &[u8]) -> Option<Record>
        ensures { result ≡ (form_as (Some self)).reads s.now }
    {
        match self {
            Kind::Make => read_make(s),
            Kind::Plain(event) => Some(read_plain(s, event)),
            Kind::Lengthy(event, field) => read_lengthy(s, event, field),
        }
    }
}

// The kind of the record that begins here. No TryFrom: there may be no byte, and an error would say no more than None.
fn kind_in(s: &[u8]) -> Option<Kind>
    ensures { form_as result ≡ form_of (get_or s.now 0 0) }
{
    match *s.first()? {
        1 => Some(Kind::Make),
        2 => Some(Kind::Plain(Event::Tick)),
        3 => Some(Kind::Plain(Event::Connect)),
        4 => Some(Kind::Plain(Event::Confirm)),
        5 => Some(Kind::Plain(Event::Disconnect)),
        6 => Some(Kind::Lengthy(Event::Data, DATA_FIELD as u8)),
        7 => Some(Kind::Lengthy(Event::Message, MESSAGE_FIELD as u8)),
        _ => None,
    }
}

// The length of the record that begins here; 0 where none can, as the law's `Forms.size_in` has it and all callers take it.
pub fn size_in(s: &[u8]) -> usize
    ensures { result ≡ size_in s.now }
{
    kind_in(s).map_or(0, Kind::size)
}

// The bytes of the record at the front, or all where it is cut.
pub fn record_bytes(s: &[u8]) -> &[u8]
    ensures { result.now ≡ record_bytes s.now }
{
    first(s, size_in(s))
}

// What the record at the front says; nothing where it is cut or of a kind that there is not.
pub fn read_record(s: &[u8]) -> Option<Record>
    ensures { result ≡ record_in s.now }
{
    let kind = kind_in(s)?;
    if s.len() < kind.size() {
        return None;
    }
    kind.read(s)
}

fn read_plain(s: &[u8], event: Event) -> Record
    ensures { Some result ≡ plain_in event s.now }
{
    Record::Happen {
        event,
        at: Reading(read(s, 1)),
        given: Span { from: 0, count: 0 },
    }
}

fn read_lengthy(s: &[u8], event: Event, field: u8) -> Option<Record>
    ensures { result ≡ lengthy_in event 1 field s.now }
{
    let count: u8 = read(s, 5);
    if count > field {
        return None;
    }
    Some(Record::Happen {
        event,
        at: Reading(read(s, 1)),
        given: Span {
            from: 6,
            count: usize::from(count),
        },
    })
}

fn read_make(s: &[u8]) -> Option<Record>
    ensures { result ≡ make_in s.now }
{
    // Told here: a TryFrom would stand in `rules`, which holds types alone.
    let role = match read::<u8, 1>(s, 1) {
        0 => Role::Initiator,
        1 => Role::Called,
        _ => return None,
    };
    Some(Record::Make {
        role,
        at: Reading(read(s, 2)),
        settings: read_settings(s),
    })
}

fn read_settings(s: &[u8]) -> Settings
    ensures { result ≡ settings_in s.now }
{
    Settings {
        age: read(s, 6),
        spread: read(s, 10),
        silence: read(s, 17),
        life_sign: read(s, 21),
        wait: read(s, 25),
        retry: read(s, 29),
        jump: read(s, 14),
        errors: read(s, 16),
    }
}

// The bytes that came with an event, as a part of its record.
pub fn given_in(s: &[u8], part: Span) -> &[u8]
    ensures { result.now ≡ given_in s.now part }
{
    first(bytes_from(s, part.from), part.count)
}
