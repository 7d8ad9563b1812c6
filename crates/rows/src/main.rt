// Runs what the printing program cannot say, row by row: line ends, Explicit, Cut, lent levels, short buffers and the
// drawing order of marks, with each refusal at its edges. The file stdin beside src/ has the rows and says how they are
// written; the file stdout holds what the library has to answer.
#![tactic(auto)]

mod job;
mod lent;
mod read;
mod say;
mod tell;

use lent::Lent;
use std::io;
use words::Asked;

// What a row lends at most: one more than the longest paragraph has.
const MOST: usize = classes::LONGEST + 1;

fn main(rt: HostRuntime) -> io::Result<()> {
    let mut input = [0u8; reading::MOST_INPUT];
    let count = reading::read_start(&mut rt.stdin(), &mut input)?;
    rows(&rt, &input[..count])
}

fn rows(rt: &impl Print, input: &[u8]) -> io::Result<()> {
    for part in input.split_inclusive(|b| *b == words::LINE_FEED) {
        line(rt, read::unended(part, words::LINE_FEED))?;
    }
    Ok(())
}

// A line is a remark, a heading or a row.
fn line(rt: &impl Print, line: &[u8]) -> io::Result<()> {
    if line.starts_with(b"#") {
        return Ok(());
    }
    rt.write_all(read::field(line, 0))?;
    row(rt, line)?;
    rt.write_all(b"\n")
}

// A row's jobs are lent what it says: the classes, the levels, the places of an order, and the line ends.
fn row(rt: &impl Print, row: &[u8]) -> io::Result<()> {
    let mut classes = [0u8; MOST];
    let mut levels = [0u8; MOST];
    let mut order = [lent::PLACE; MOST];
    let mut ends = [0u16; 8];
    let places = usize::from(read::number(read::field(row, 4)));
    let Some(order) = order.get_mut(..places) else {
        return Ok(());
    };
    let mut lent = Lent {
        classes: read::bytes(read::field(row, 2), &mut classes),
        levels: read::bytes(read::field(row, 3), &mut levels),
        order,
        ends: read::numbers(read::field(row, 6), &mut ends),
        // A row's numbers may be larger than a byte: the lowest bits count. No `From` narrows.
        asked: Asked {
            request: (read::number(read::field(row, 5)) % 256) as u8,
            fallback: (read::number(read::field(row, 7)) % 256) as u8,
        },
    };
    lent.run(rt, read::field(row, 1))
}
