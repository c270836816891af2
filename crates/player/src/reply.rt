// One record in, one line out.
ghost use Rattle.std.specs.Prelude.{◌≤◌, [], false};
ghost use Rattle.player.specs.Puts.{room_of};
ghost use Rattle.player.specs.Replying.{Replies, held_by};
ghost use Rattle.rules.specs.Make.{made_of};
ghost use Rattle.script.specs.Lines.{line_room};
ghost use Rattle.script.specs.Promise.{ReplyPromise};
ghost use Rattle.script.specs.Reply.{held_as, reply_with, make_reply, event_reply, reply_to};

use crate::record::{given_in, read_record, record_bytes};
use crate::text::Text;
use judge::clock::Reading;
use link::make::make;
use link::step::step;
use queue::BYTES;
use rules::act::Event;
use rules::answer::Answer;
use rules::effect::ROOM;
use rules::settings::Settings;
use rules::state::{End, Role};
use script::record::Record;
use script::reply::{LINE, Replied};

// Answers the record at the front of `s`: the line stands at the front of `text`.
// What is lent stands apart here, in `play` and in `feed`, as `ReplyPromise` and its kin of the law name it. Room for a line
// is asked for by three functions here and in line.rt: it is used up by them, so that no type can hold it.
pub fn reply(
    seat: Option<End>,
    s: &[u8],
    out: &mut [u8; ROOM],
    q: &mut [u8; BYTES],
    text: &mut [u8; LINE],
) -> Replied
    ensures { ReplyPromise (held_as seat q.old out.old) s.now text.old (record { replied = result; text = text.new; queue = q.new; out = out.new }) }
{
    let text = &mut Text { bytes: text, to: 0 };
    let mut player = Player { seat, out, q, text };
    let bad = player.reply(s);
    Replied {
        seat: player.seat,
        to: player.text.to,
        bad,
    }
}

// The end that the script speaks of, and what is lent: its output, its queue, and the text of the lines.
#[derive(Drop)]
pub(crate) struct Player<'a, 't> {
    pub(crate) seat: Option<End>,
    pub(crate) out: &'a mut [u8; ROOM],
    pub(crate) q: &'a mut [u8; BYTES],
    pub(crate) text: &'a mut Text<'t>,
}

impl Player<'_, '_> {
    // Answers the record at the front of `s`, and says whether it was bad.
    pub(crate) fn reply(&mut self, s: &[u8]) -> bool
        requires { line_room ≤ room_of self.old.text.now }
        ensures { Replies (reply_to (held_by self.old) s.now) self.old result self.new }
    {
        let own = record_bytes(s);
        let Some(record) = read_record(own) else {
            self.text.put(b"bad record\n");
            return true;
        };
        match record {
            Record::Make { role, at, settings } => self.make(role, at, settings),
            Record::Happen { event, at, given } => self.step(event, at, given_in(own, given)),
        }
        false
    }

    // A valid make starts anew, and a refused one keeps the end there was. Role, reading and settings go apart, as `make` takes them.
    fn make(&mut self, role: Role, at: Reading, settings: Settings)
        requires { 3 ≤ room_of self.old.text.now }
        ensures { Replies (make_reply (held_by self.old) (made_of role at settings)) self.old false self.new }
    {
        match make(role, at, settings) {
            Ok(end) => {
                self.seat = Some(end);
                self.answer(Answer::Handled)
            }
            Err(answer) => self.answer(answer),
        }
    }

    // Events before a valid make have no rule.
    fn step(&mut self, event: Event, at: Reading, given: &[u8])
        requires { line_room ≤ room_of self.old.text.now }
        ensures { Replies (event_reply (held_by self.old) self.old.seat event at given.now) self.old false self.new }
    {
        let Some(end) = self.seat else {
            return self.answer(Answer::NoRule);
        };
        let outcome = step(end, event, at, given, self.out.as_mut_slice(), self.q);
        self.seat = Some(outcome.end);
        self.text
            .put_line(outcome.answer, outcome.flags, outcome.front, self.out);
    }

    // A line with an answer alone.
    fn answer(&mut self, answer: Answer)
        requires { 3 ≤ room_of self.old.text.now }
        ensures { Replies (reply_with (held_by self.old) answer []) self.old false self.new }
    {
        self.text.put_answer(answer);
        self.text.put(b"\n");
    }
}
