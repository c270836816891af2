// The records of a script. The bytes that come with an event are no field: they stay where they stand.
use judge::clock::Reading;
use rules::act::Event;
use rules::settings::Settings;
use rules::state::Role;

// The field of user data in a record of kind 6, and that of a message in one of kind 7. A longer message
// on the line makes no record longer.
pub const DATA_FIELD: usize = 100;

pub const MESSAGE_FIELD: usize = 128;

// So many bytes of a record, from a place on. No slice, since the law says a record as a value (`Forms.record_in`).
#[derive(Clone, Copy)]
pub struct Span {
    pub from: usize,
    pub count: usize,
}

#[derive(Clone, Copy)]
pub enum Record {
    Make {
        role: Role,
        at: Reading,
        settings: Settings,
    },
    // An event, and where the bytes stand that came with it.
    Happen {
        event: Event,
        at: Reading,
        given: Span,
    },
}
