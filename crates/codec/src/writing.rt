// A message over the front of a lent output. Either the whole message is written or no byte is.
ghost use Rattle.std.specs.Prelude.{◌≡◌, ◌+◌, ◌++◌, ◌≤◌, length};
ghost use Rattle.wire.specs.Message.{header_bytes, kind_of};
ghost use Rattle.wire.specs.Writing.{over, placed, placed_count, written, written_count};

use crate::kind::kind_of;
use crate::number::{Number, write};
use wire::message::{Body, HEADER, LIFE_SIGN, LONGEST, Message, TRAIN_DATA};

// Writes a message, and answers how many bytes it has: none where the output has no room for it, or
// where it is one of train data and these are none or too many. Other messages pass over `train`.
// A count and no Option: `Front::Message` counts, and `link::place`, which has proved that there is room, would only unwrap.
#[tactic(auto, unfolding(wire::specs::Message::encode))]
pub fn write_message(out: &mut [u8], m: Message, train: &[u8]) -> usize
    ensures value { result ≡ written_count m train.now out.old }
    ensures out_after { out.new ≡ written m train.now out.old }
{
    match m.body {
        Body::OffsetEst { minimum, maximum } => {
            place(out, m, &minimum.0.to_bytes(), &maximum.0.to_bytes())
        }
        Body::LifeSign => place(out, m, &[LIFE_SIGN], &[]),
        Body::TrainData if (1..=LONGEST).contains(&train.len()) => place(
            out,
            m,
            &[TRAIN_DATA],
            train,
        ),
        Body::TrainData => 0,
        Body::OffsetStart | Body::OffsetAnsw1 | Body::OffsetAnsw2 | Body::OffsetEnd => {
            place(out, m, &[], &[])
        }
    }
}

// The header of a message, and behind it the two parts of its payload.
fn place(out: &mut [u8], m: Message, first: &[u8], then: &[u8]) -> usize
    ensures value { result ≡ placed_count (header_bytes (kind_of m.body) m.header ++ (first.now ++ then.now)) out.old }
    ensures out_after { out.new ≡ placed (header_bytes (kind_of m.body) m.header ++ (first.now ++ then.now)) out.old }
{
    let size = (HEADER + first.len()).saturating_add(then.len());
    if out.len() < size {
        return 0;
    }
    put_header(out, m);
    put_payload(&mut out[HEADER..], first, then);
    size
}

// Kind, number and time stamps.
#[tactic(auto, using(wire::proofs::Over::header_stored))]
fn put_header(out: &mut [u8], m: Message)
    requires { HEADER ≤ length out.old }
    ensures { out.new ≡ over (header_bytes (kind_of m.body) m.header) out.old }
{
    out[0] = kind_of(m.body);
    write(out, 1, m.header.number);
    write(out, 3, m.header.stamps.sent.0);
    write(out, 7, m.header.stamps.echo.0);
    write(out, 11, m.header.stamps.receipt.0);
}

// The payload, over the part of the output that starts after the header.
fn put_payload(part: &mut [u8], first: &[u8], then: &[u8])
    requires { length first.now + length then.now ≤ length part.old }
    ensures { part.new ≡ over (first.now ++ then.now) part.old }
{
    let end = first.len() + then.len();
    part[..first.len()].copy_from_slice(first);
    part[first.len()..end].copy_from_slice(then);
}
