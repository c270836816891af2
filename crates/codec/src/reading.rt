// What any bytes say.
ghost use Rattle.std.specs.Prelude.{◌≡◌, option_map};
ghost use Rattle.wire.specs.Message.{parse, header_in, train_in};

use crate::kind::shape_of;
use crate::number::{bytes_from, read};
use judge::clock::{Offset, Reading, Stamps};
use wire::message::{Body, HEADER, Header, LIFE_SIGN, LONGEST, Message, Shape, TRAIN_DATA};

// What bytes say: a message, or none where they are malformed.
pub fn read_message(s: &[u8]) -> Option<Message>
    ensures { result ≡ parse s.now }
{
    let body = read_body(s)?;
    Some(Message {
        header: read_header(s),
        body,
    })
}

// The train data of a message that carries some, as a part of its bytes.
pub fn train_data(s: &[u8]) -> &[u8]
    ensures { result.now ≡ train_in s.now }
{
    bytes_from(s, HEADER + 1)
}

fn read_header(s: &[u8]) -> Header
    ensures { result ≡ header_in s.now }
{
    Header {
        stamps: Stamps {
            sent: Reading(read(s, 3)),
            echo: Reading(read(s, 7)),
            receipt: Reading(read(s, 11)),
        },
        number: read(s, 1),
    }
}

// What bytes say behind their header, none where they are malformed.
#[tactic(auto, unfolding(wire::specs::Message::parse))]
fn read_body(s: &[u8]) -> Option<Body>
    ensures { parse s.now ≡ option_map (λ body. record { header = header_in s.now; body = body }) result }
{
    let (header, rest) = s.split_first_chunk::<HEADER>()?;
    match (shape_of(header[0])?, rest) {
        (Shape::Bare(body), []) => Some(body),
        (Shape::Offsets, _) if rest.len() == 8 => Some(Body::OffsetEst {
            minimum: Offset(read(rest, 0)),
            maximum: Offset(read(rest, 4)),
        }),
        (Shape::Payload, [LIFE_SIGN]) => Some(Body::LifeSign),
        (Shape::Payload, [TRAIN_DATA, _, ..]) if rest.len() <= 1 + LONGEST => Some(Body::TrainData),
        _ => None,
    }
}
