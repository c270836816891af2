// The only step that touches bytes.
ghost use Rattle.std.specs.Prelude.{◌≡◌, true, ◌≤◌, length};
ghost use Rattle.wire.specs.Message.{encode, train_in};
ghost use Rattle.wire.specs.Writing.{over, carries};
ghost use Rattle.rules.specs.Decide.{least_room};
ghost use Rattle.rules.specs.Place.{out_after, queue_after, front_after, Ready};

use codec::reading::train_data;
use codec::writing::write_message;
use queue::BYTES;
use rules::effect::{Front, Placing};
use store::{oldest, put};
use wire::message::Message;

// Puts what an event gives out at the front of the output, and data that must wait into the queue.
pub fn place(p: Placing, given: &[u8], out: &mut [u8], q: &mut [u8; BYTES]) -> Front
    requires { Ready p given.now (length out.old) }
    ensures value { result ≡ front_after p given.now q.old }
    ensures out_after { out.new ≡ out_after p given.now q.old out.old }
    ensures q_after { q.new ≡ queue_after p given.now q.old }
{
    match p {
        Placing::Nothing => Front::Nothing,
        Placing::Send(m) => send(out, m, &[]),
        Placing::SendUser(m) => send(out, m, given),
        Placing::SendOldest { message, ring } => send(out, message, oldest(q, ring)),
        Placing::Deliver => deliver(out, given),
        Placing::Store(ring) => {
            put(q, ring, given);
            Front::Nothing
        }
    }
}

#[tactic(auto, using(rules::proofs::Fits::written_whole))]
fn send(out: &mut [u8], m: Message, train: &[u8]) -> Front
    requires { (carries m.body train.now ≡ true) × (least_room ≤ length out.old) }
    ensures value { result ≡ Front.Message (length (encode m train.now)) }
    ensures out_after { out.new ≡ over (encode m train.now) out.old }
{
    Front::Message(write_message(out, m, train))
}

fn deliver(out: &mut [u8], given: &[u8]) -> Front
    requires { length (train_in given.now) ≤ length out.old }
    ensures value { result ≡ Front.Datum (length (train_in given.now)) }
    ensures out_after { out.new ≡ over (train_in given.now) out.old }
{
    let train = train_data(given);
    let n = train.len();
    out[..n].copy_from_slice(train);
    Front::Datum(n)
}
