// The buffer that the script is read into.
ghost use Rattle.std.specs.Prelude.{◌≡◌, ◌-◌, ◌≤◌, ◌<◌, length, take, drop, IfOk, OnErr};
ghost use Rattle.std.specs.Io.KnownBytes.{Consumes, Keeps, IsAtEnd};

use std::io;
use std::io::Read;

// Reads once behind the first `end` bytes, which stay, and answers how many bytes came: 0 at the end of the
// input, or where there is no room. Where the read fails, none of the input is taken.
pub fn read_more<R: Read>(input: &mut R, buffer: &mut [u8], end: usize) -> io::Result<usize>
    ensures room { IfOk result (λ got. got ≤ length buffer.old - end) }
    ensures front { take end buffer.new ≡ take end buffer.old }
    ensures bytes { IfOk result (λ got. Consumes (R.remaining input.old) (R.remaining input.new) (take got (drop end buffer.new))) }
    ensures at_end { IfOk result (λ got. got ≡ 0 → end < length buffer.old → IsAtEnd (R.remaining input.new)) }
    ensures err { OnErr result (Keeps (R.remaining input.old) (R.remaining input.new)) }
{
    if buffer.len() < end {
        return Ok(0);
    }
    input.read(&mut buffer[end..])
}
