// The input that the messages are taken from.
ghost use Rattle.std.specs.Prelude.{◌≤◌, ◌<◌, length, take, IfOk};
ghost use Rattle.std.specs.Io.KnownBytes.{Consumes, IsAtEnd};

use std::io;
use std::io::Read;

// Reads to the front of the buffer until it is full or the input ends, and answers how many bytes came.
// The index stays: behind a `&mut` that a loop moves along nothing proves `bytes`, and `read_exact` refuses a short input.
pub fn fill<R: Read>(input: &mut R, buffer: &mut [u8]) -> io::Result<usize>
    ensures room { IfOk result (λ filled. filled ≤ length buffer.new) }
    ensures bytes { IfOk result (λ filled. Consumes (R.remaining input.old) (R.remaining input.new) (take filled buffer.new)) }
    ensures end { IfOk result (λ filled. filled < length buffer.new → IsAtEnd (R.remaining input.new)) }
{
    let mut filled = 0;
    while filled < buffer.len() {
        match input.read(&mut buffer[filled..])? {
            0 => break,
            got => filled += got,
        }
    }
    Ok(filled)
}
