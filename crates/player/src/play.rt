// A script, or a piece of one, as far as the lent text has room. What is lent to `play` goes apart, as `PlayPromise` names it.
ghost use Rattle.std.specs.Prelude.{◌≡◌, ◌≤◌, length};
ghost use Rattle.player.specs.Puts.{room_of};
ghost use Rattle.player.specs.Replying.{PlaysPiece, held_by};
ghost use Rattle.script.specs.Play.{pauses, played};
ghost use Rattle.script.specs.Promise.{PlayPromise};
ghost use Rattle.script.specs.Reply.{held_as};

use crate::record::size_in;
use crate::reply::Player;
use crate::text::Text;
use queue::BYTES;
use rules::effect::ROOM;
use rules::state::End;
use script::reply::{LINE, Played};

// Answers the records of `s`, one line each from the front of `text` on. It stops where nothing is left,
// where a line may not fit any more, and, unless `s` is the last piece, before a record that is cut: what
// was not used is to be handed in again, with more room or with what follows it.
pub fn play(
    seat: Option<End>,
    s: &[u8],
    last: bool,
    out: &mut [u8; ROOM],
    q: &mut [u8; BYTES],
    text: &mut [u8],
) -> Played
    ensures promise { PlayPromise last (held_as seat q.old out.old) s.now text.old (record { played = result; text = text.new; queue = q.new; out = out.new }) }
    ensures in_bounds { (result.used ≤ length s.now) × (result.wrote ≤ length text.old) }
{
    let text = &mut Text { bytes: text, to: 0 };
    let mut player = Player { seat, out, q, text };
    let (used, ended) = player.play(s, last);
    Played {
        seat: player.seat,
        used,
        wrote: player.text.to,
        ended,
    }
}

impl Player<'_, '_> {
    // The same: how many bytes were answered, and whether a bad record has ended the script.
    fn play(&mut self, s: &[u8], last: bool) -> (usize, bool)
        ensures plays { PlaysPiece (played last (held_by self.old) s.now (room_of self.old.text.now)) self.old result.0 result.1 self.new }
        ensures in_bounds { result.0 ≤ length s.now }
    {
        let mut rest = s;
        let ended = loop {
            if pauses_at(rest, last, self.text.room()) {
                break false;
            }
            if self.reply(rest) {
                break true;
            }
            rest = &rest[size_in(rest)..];
        };
        (s.len() - rest.len(), ended)
    }
}

// Whether nothing is left, or a line may not fit, or the rest of a record is still to come.
fn pauses_at(s: &[u8], last: bool, room: usize) -> bool
    ensures { result ≡ pauses last s.now room }
{
    s.is_empty() || room < LINE || (!last && s.len() < size_in(s))
}
