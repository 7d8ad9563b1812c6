// Reads the start of an input into a buffer, and no byte more, so that the rest is left for the next reader.
#![tactic(auto)]

ghost use Rattle.std.specs.Prelude.{◌≡◌, Some, IfOk, IfSome, OnOk, length, take, drop};
ghost use Rattle.std.specs.Io.{ReadsAtMost};

use std::io;
use std::io::Read;

// So many bytes of its input a program reads at most.
pub const MOST_INPUT: usize = 65_536;

// Reads until the buffer is full or the input ends, and answers how many bytes it put at the buffer's start. Ends with
// the error where a read fails.
pub fn read_start<R: Read>(input: &mut R, buffer: &mut [u8]) -> io::Result<usize>
    ensures prefix_len { ReadsAtMost result buffer.new }
    ensures start { IfOk result (λ n. IfSome (R.remaining input.old) (λ bytes. take n buffer.new ≡ take (length buffer.old) bytes)) }
    ensures rest { OnOk result (IfSome (R.remaining input.old) (λ bytes. R.remaining input.new ≡ Some (drop (length buffer.old) bytes))) }
{
    // The place is where reads have come, not a count of turns. A rest that shrinks in its place was tried, but then no
    // invariant can name what was read, and `start` is not proved.
    let mut count = 0;
    while count < buffer.len() {
        let more = input.read(&mut buffer[count..])?;
        if more == 0 {
            return Ok(count);
        }
        count += more;
    }
    Ok(count)
}
