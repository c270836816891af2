// Feeds an end five million delivered messages, and prints how many it delivered. It is there to be
// timed: a called end comes Up, and then one message with its train data comes again and again with
// the next number each time. Standard input has the peer's three messages of the start, that message,
// and the reading of every event, so that the compiler knows none of them.
#![tactic(auto)]

mod input;
mod timed;

use codec::number::{read, write};
use judge::clock::Reading;
use link::make::make;
use link::step::step;
use queue::BYTES;
use rules::state::Role;
use std::io;

const EVENTS: u32 = 5_000_004;

fn main(rt: HostRuntime) -> io::Result<()> {
    let mut out = [0u8; 128];
    let mut queue = [0u8; BYTES];
    let mut input = [0u8; 85];
    input::fill(&mut rt.stdin(), &mut input)?;
    let at = Reading(read(&input, 81));
    let Ok(mut end) = make(Role::Called, at, timed::settings()) else {
        return Ok(());
    };
    let mut delivered = 0;
    for turn in 0..EVENTS {
        // The bytes are lent twice: lent once, as `&mut input[span]`, a message takes 111 instructions, and so 94.
        let span = timed::span_of(turn);
        write(&mut input, span.start + 1, timed::number_at(turn));
        let outcome = step(
            end,
            timed::event_at(turn),
            at,
            &input[span],
            &mut out,
            &mut queue,
        );
        end = outcome.end;
        delivered += u32::from(timed::is_datum(outcome.front));
    }
    println!(rt; "{delivered} delivered")
}
