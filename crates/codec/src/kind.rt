// The kinds of message, both ways. No other code has the number of a kind.
// No From or TryFrom: it would stand in `wire`, which holds types alone; nor a discriminant, since one body has fields.
ghost use Rattle.std.specs.Prelude.{◌≡◌};
ghost use Rattle.wire.specs.Message.{kind_of, shape_of};

use wire::message::{Body, Shape};

// The first byte of a message.
pub fn kind_of(body: Body) -> u8
    ensures { result ≡ kind_of body }
{
    match body {
        Body::OffsetStart => 1,
        Body::OffsetAnsw1 => 2,
        Body::OffsetAnsw2 => 3,
        Body::OffsetEst { .. } => 4,
        Body::OffsetEnd => 5,
        Body::LifeSign | Body::TrainData => 6,
    }
}

// What a first byte says of all that follows it, or none where there is no such kind.
pub fn shape_of(kind: u8) -> Option<Shape>
    ensures { result ≡ shape_of kind }
{
    match kind {
        1 => Some(Shape::Bare(Body::OffsetStart)),
        2 => Some(Shape::Bare(Body::OffsetAnsw1)),
        3 => Some(Shape::Bare(Body::OffsetAnsw2)),
        4 => Some(Shape::Offsets),
        5 => Some(Shape::Bare(Body::OffsetEnd)),
        6 => Some(Shape::Payload),
        _ => None,
    }
}
