// The line that answers an event. What a clause `room` says is told in text.rt.
ghost use Rattle.std.specs.Prelude.{◌++◌, ◌+◌, ◌*◌, ◌≤◌, length};
ghost use Rattle.rules.specs.Answers.{number_of};
ghost use Rattle.rules.specs.Decide.{least_room};
ghost use Rattle.rules.specs.Outputs.{front_output, outputs_of};
ghost use Rattle.player.specs.Puts.{Puts, room_of};
ghost use Rattle.player.specs.Reports.{earlier, later};
ghost use Rattle.script.specs.Lines.{words_of, answer_line, line_room};
ghost use Rattle.script.specs.Words.{decimal_of, hex_of};

use crate::part::first;
use crate::text::Text;
use link::answer::number;
use rules::answer::Answer;
use rules::effect::{Flags, Front};

impl Text<'_> {
    // The number, then the outputs in order, then a line end. `out` is the output after the event.
    pub fn put_line(&mut self, answer: Answer, flags: Flags, front: Front, out: &[u8])
        requires room { line_room ≤ room_of self.old }
        requires fits { length out.now ≤ least_room }
        ensures puts { Puts self.old (answer_line answer (outputs_of flags front out.now)) self.new }
        ensures room { room_of self.old ≤ room_of self.new + line_room }
    {
        self.put_answer(answer);
        self.put_earlier(flags);
        self.put_front(front, out);
        self.put_later(flags);
        self.put(b"\n");
    }

    // The number of an answer, which has two digits at most.
    pub fn put_answer(&mut self, answer: Answer)
        requires { 2 ≤ room_of self.old }
        ensures puts { Puts self.old (decimal_of (number_of answer)) self.new }
        ensures room { room_of self.old ≤ room_of self.new + 2 }
    {
        self.put_number(number(answer));
    }

    // What is reported before a message or datum.
    fn put_earlier(&mut self, flags: Flags)
        requires { 11 ≤ room_of self.old }
        ensures puts { Puts self.old (words_of (earlier flags)) self.new }
        ensures room { room_of self.old ≤ room_of self.new + 11 }
    {
        self.put_if(flags.ask, b" ask");
        self.put_if(flags.accept, b" accept");
    }

    // What is reported after it.
    fn put_later(&mut self, flags: Flags)
        requires { 22 ≤ room_of self.old }
        ensures puts { Puts self.old (words_of (later flags)) self.new }
        ensures room { room_of self.old ≤ room_of self.new + 22 }
    {
        self.put_if(flags.up, b" up");
        self.put_if(flags.error, b" error");
        self.put_if(flags.release, b" release");
        self.put_if(flags.down, b" down");
    }

    // The message or datum at the front of the output.
    fn put_front(&mut self, front: Front, out: &[u8])
        requires { 6 + 2 * length out.now ≤ room_of self.old }
        ensures puts { Puts self.old (words_of (front_output front out.now)) self.new }
        ensures room { room_of self.old ≤ room_of self.new + (6 + 2 * length out.now) }
    {
        match front {
            Front::Nothing => {}
            Front::Message(n) => self.put_shown(b" send ", first(out, n)),
            Front::Datum(n) => self.put_shown(b" data ", first(out, n)),
        }
    }

    fn put_shown(&mut self, word: &[u8], given: &[u8])
        requires { length word.now + 2 * length given.now ≤ room_of self.old }
        ensures puts { Puts self.old (word.now ++ hex_of given.now) self.new }
        ensures room { room_of self.old ≤ room_of self.new + (length word.now + 2 * length given.now) }
    {
        self.put(word);
        self.put_hex(given);
    }
}
