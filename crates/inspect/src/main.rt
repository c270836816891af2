// How bytes read as messages of the line. Each line of standard input is a byte string in
// hexadecimal digits, with spaces between them as one likes and a note after '#'; a line with a note
// alone is passed over. For each of the others one line is printed: 'malformed', or kind, number,
// sent, echo and receipt, then the offsets of kind 4 or, for kind 6, the payload's first byte and
// the train data in hexadecimal.
#![tactic(auto)]

mod hex;
mod show;

use hex::Line;
use std::io;
use std::io::Read;

fn main(rt: HostRuntime) -> io::Result<()> {
    let mut stdin = rt.stdin();
    let mut input = [0u8; 65536];
    let mut line = Line::default();
    // The turns are counted, since a loop over a live input has no measure; a `BufReader` would do without, and no program here
    // rests on the heap.
    for _ in 0..u64::MAX {
        let got = stdin.read(&mut input)?;
        if got == 0 {
            return Ok(());
        }
        for (before, part) in input[..got]
            .split(|&character| character == b'\n')
            .enumerate()
        {
            // A line has ended before each part but the first.
            if before > 0 {
                show::show(&rt, &line)?;
                line.clear();
            }
            line.feed_all(part);
        }
    }
    Ok(())
}
