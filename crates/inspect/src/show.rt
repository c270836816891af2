// A message as a row of numbers, printed.
ghost use Rattle.std.specs.Prelude.{◌≡◌, IfOk, Some};
ghost use Rattle.std.specs.List.{flat_map};
ghost use Rattle.wire.specs.Message.{parse};
ghost use Rattle.inspect.specs.Row.{row_of, count_of, told};
ghost use Rattle.inspect.specs.Text.{spaced, byte_of};

use crate::hex::Line;
use arrayvec::ArrayVec;
use codec::kind::kind_of;
use codec::reading::{read_message, train_data};
use std::fmt::Display;
use std::{fmt, io};
use wire::message::{Body, LIFE_SIGN, Message, TRAIN_DATA};

// The numbers of a message, as they are shown.
#[derive(Drop)]
struct Row(ArrayVec<u32, 7>);

impl From<Message> for Row {
    ghost from_gives = { λ message row. row.0.items ≡ row_of message };

    fn from(message: Message) -> Self {
        let stamps = message.header.stamps;
        let mut numbers = ArrayVec::new();
        numbers.push(u32::from(kind_of(message.body)));
        numbers.push(u32::from(message.header.number));
        numbers.push(stamps.sent.0);
        numbers.push(stamps.echo.0);
        numbers.push(stamps.receipt.0);
        match message.body {
            Body::OffsetEst { minimum, maximum } => {
                numbers.push(minimum.0);
                numbers.push(maximum.0);
            }
            Body::LifeSign => numbers.push(u32::from(LIFE_SIGN)),
            Body::TrainData => numbers.push(u32::from(TRAIN_DATA)),
            Body::OffsetStart | Body::OffsetAnsw1 | Body::OffsetAnsw2 | Body::OffsetEnd => {}
        }
        Row(numbers)
    }
}

impl Display for Row {
    ghost output = { λ r. Some (spaced r.0.items) };

    fn fmt<W: fmt::Write>(&self, f: &mut fmt::Formatter<W>) -> fmt::Result {
        let Some((first, rest)) = self.0.split_first() else {
            return Ok(());
        };
        write!(f, "{first}")?;
        for number in rest {
            write!(f, " {number}")?;
        }
        Ok(())
    }
}

// Train data in hexadecimal.
#[derive(Drop)]
struct Hex<'a>(&'a [u8]);

impl Display for Hex<'_> {
    ghost output = { λ h. Some (flat_map byte_of h.0.now) };

    fn fmt<W: fmt::Write>(&self, f: &mut fmt::Formatter<W>) -> fmt::Result {
        for &byte in self.0 {
            write!(f, "{byte:02x}")?;
        }
        Ok(())
    }
}

// Prints how a line reads, and answers how many numbers that took.
#[tactic(auto, unfolding(wire::specs::Message::parse))]
pub fn show(rt: &impl Print, line: &Line) -> io::Result<usize>
    ensures { IfOk result (λ count. count ≡ told line.now) }
{
    if line.bad {
        return say(rt, "not hexadecimal");
    }
    if line.high.is_some() {
        return say(rt, "half a byte");
    }
    let bytes = line.bytes.as_slice();
    let is_note_alone = line.note && bytes.is_empty();
    if is_note_alone {
        return Ok(0);
    }
    show_message(rt, bytes)
}

// Functions of their own, since what they print with is made ready at each call: a line that shows nothing does without.
fn show_message(rt: &impl Print, bytes: &[u8]) -> io::Result<usize>
    ensures { IfOk result (λ count. count ≡ count_of (parse bytes.now)) }
{
    let Some(message) = read_message(bytes) else {
        return say(rt, "malformed");
    };
    let row = Row::from(message);
    if let Body::TrainData = message.body {
        println!(rt; "{row} {}", Hex(train_data(bytes)))?;
    } else {
        println!(rt; "{row}")?;
    }
    Ok(row.0.len())
}

// Prints a line of words, which takes no numbers.
fn say(rt: &impl Print, words: &str) -> io::Result<usize>
    ensures { IfOk result (λ count. count ≡ 0) }
{
    println!(rt; "{words}")?;
    Ok(0)
}
