// The printing program: classes as text on standard input, levels and orders on standard output.
// What the system reads and writes cannot be stated; all else is in functions that are proved.
#![tactic(auto)]

ghost use Rattle.std.specs.Prelude.{◌≡◌, Some, IfSome, OnOk, drop};
ghost use Rattle.std.specs.Io.KnownBytes.{Appends};
ghost use Rattle.words.specs.Words.{lines_of};
ghost use Rattle.printing.specs.Printing.{most_input, text_of_all, output_of};

use std::io;
use std::io::{Read, Write};

fn main(rt: HostRuntime) -> io::Result<()> {
    print_input(&mut rt.stdin(), &mut rt.stdout())
}

// Reads no further than the limit, and leaves the rest for the next reader. Ends with the error where the input cannot
// be read.
fn print_input<R: Read, W: Write>(input: &mut R, output: &mut W) -> io::Result<()>
    ensures printed { OnOk result (IfSome (R.remaining input.old) (λ bytes. Appends (W.contents output.old) (W.contents output.new) (output_of bytes))) }
    ensures rest { OnOk result (IfSome (R.remaining input.old) (λ bytes. R.remaining input.new ≡ Some (drop most_input bytes))) }
{
    let mut bytes = [0u8; reading::MOST_INPUT];
    let count = reading::read_start(input, &mut bytes)?;
    print_lines(&bytes[..count], output)
}

// Each line in turn, as long as its output is taken. A line feed at the very end begins no further line.
#[tactic(auto, using(words::proofs::PartLaws::end_within))]
fn print_lines<W: Write>(input: &[u8], output: &mut W) -> io::Result<()>
    ensures { OnOk result (Appends (W.contents output.old) (W.contents output.new) (text_of_all (lines_of input.now))) }
{
    let mut out = [0u8; printing::MOST_OUTPUT];
    // No `for` over std's `split_inclusive`: tried, but in a generic function no invariant of that iterator is admitted.
    let mut from = 0;
    while from < input.len() {
        let end = words::part_end(input, words::LINE_FEED, from);
        let count = printing::print_line(&input[from..end], &mut out);
        output.write_all(&out[..count])?;
        from = end + 1;
    }
    Ok(())
}
