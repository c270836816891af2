// What a program does between two reads, over the buffers that it lends. They and the two places go apart, as
// `FeedPromise` names them.
ghost use Rattle.std.specs.Prelude.{◌≡◌, ◌-◌, ◌≤◌, cond, eqb, length};
ghost use Rattle.std.proofs.lemmas.List.Edits.{sets};
ghost use Rattle.std.proofs.Math.Seq.{slice};
ghost use Rattle.script.specs.Feed.{input_as};
ghost use Rattle.script.specs.Promise.{FeedPromise};
ghost use Rattle.script.specs.Reply.{held_as};
ghost use Rattle.script.specs.declared.reply.Next.TheVariants.{Again, Read, Stop};

use crate::part::first;
use crate::play::play;
use codec::number::bytes_from;
use queue::BYTES;
use rules::effect::ROOM;
use rules::state::End;
use script::reply::{Fed, Next, Played};

// Plays the bytes of `input` from `start` to `end`, as far as the text has room; `over` says that no more can
// come. The first `wrote` bytes of the text are then to be printed. Where more must come, what is still to be
// played is moved to the front, and what comes belongs behind it.
pub fn feed(
    seat: Option<End>,
    input: &mut [u8],
    start: usize,
    end: usize,
    over: bool,
    out: &mut [u8; ROOM],
    q: &mut [u8; BYTES],
    text: &mut [u8],
) -> Fed
    ensures promise { FeedPromise over (held_as seat q.old out.old) (input_as input.old start end) text.old (record { fed = result; buffer = input.new; text = text.new; queue = q.new; out = out.new }) }
    ensures in_bounds { (result.end ≤ end) × (result.wrote ≤ length text.old) }
{
    let played = play(seat, between(input, start, end), over, out, q, text);
    let next = next_after(over, &played);
    let (start, end) = match next {
        Next::Again | Next::Stop => (start + played.used, end),
        Next::Read => (0, to_front(input, start, end)),
    };
    Fed {
        seat: played.seat,
        wrote: played.wrote,
        start,
        end,
        next,
    }
}

// A bad record ends all, and so does the end of the input where nothing is left to play.
fn next_after(over: bool, played: &Played) -> Next
    ensures { result ≡ cond played.now.ended Stop (cond (eqb played.now.used 0) (cond over Stop Read) Again) }
{
    if played.ended {
        Next::Stop
    } else if played.used > 0 {
        Next::Again
    } else if over {
        Next::Stop
    } else {
        Next::Read
    }
}

// The bytes from `start` to `end`: none where these are out of order, and no more than there are.
fn between(s: &[u8], start: usize, end: usize) -> &[u8]
    ensures value { result.now ≡ slice start end s.now }
    ensures in_bounds { length result.now ≤ end - start }
{
    bytes_from(first(s, end), start)
}

// Moves these bytes to the front, and answers how many they are.
#[tactic(auto, using(crate::proofs::Moving::to_front))]
fn to_front(buffer: &mut [u8], start: usize, end: usize) -> usize
    ensures value { (result ≡ length (slice start end buffer.old)) × (result ≤ end) }
    ensures moved { buffer.new ≡ sets buffer.old 0 (slice start end buffer.old) }
{
    let end = end.min(buffer.len());
    let start = start.min(end);
    buffer.copy_within(start..end, 0);
    end - start
}
