// Plays the script on standard input and prints one line for each record. All that is done between two
// reads is `feed` of the library `player`; here are the buffers, and the calls that read and write.
#![tactic(auto)]

mod input;

use input::read_more;
use player::feed::feed;
use queue::BYTES;
use rules::effect::ROOM;
use script::reply::Next;
use std::io;

// How many bytes of the script, and how many of the text, are held at once. Arrays, since memory is fixed here.
const LARGE: usize = 65536;

fn main(rt: HostRuntime) -> io::Result<()> {
    let mut stdin = rt.stdin();
    let mut input = [0u8; LARGE];
    let mut text = [0u8; LARGE];
    let mut out = [0u8; ROOM];
    let mut q = [0u8; BYTES];
    let mut seat = None;
    // The bytes of the input from `start` to `end` are still to be played, as `feed` takes them; `over` says that no more come.
    let mut start = 0;
    let mut end = 0;
    let mut over = false;
    // Counted, since no measure is to be had of bytes that are still to come, and main may not wait for ever.
    for _ in 0..u64::MAX {
        let fed = feed(
            seat, &mut input, start, end, over, &mut out, &mut q, &mut text,
        );
        rt.write_all(&text[..fed.wrote])?;
        (seat, start, end) = (fed.seat, fed.start, fed.end);
        match fed.next {
            Next::Again => {}
            Next::Stop => return Ok(()),
            Next::Read => {
                let got = read_more(&mut stdin, &mut input, end)?;
                end += got;
                over = got == 0;
            }
        }
    }
    Ok(())
}
