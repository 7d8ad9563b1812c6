// One line of the printing program: its bytes in, its whole output into a lent buffer.
#![tactic(auto)]

ghost use Rattle.std.specs.Prelude.{◌≡◌, length, take};
ghost use Rattle.io.specs.Counts.{IsPrefixLen};
ghost use Rattle.rules.specs.Line.{line_order};
ghost use Rattle.rules.specs.Refusals.{sound, checks_of_line, longest_paragraph};
ghost use Rattle.writing.specs.Text.{refused_row};
ghost use Rattle.writing.specs.Writes.{Writes};
ghost use Rattle.refusals.specs.Page.{number_of, place_of};
ghost use Rattle.printing.specs.Printing.{paragraph_rows, paragraph_text, line_text, Prints};

use refusals::Refusal;
use words::Asked;
use writing::Output;

// More bytes than any line's output has.
pub const MOST_OUTPUT: usize = 9 * classes::LONGEST;

// One class more than the longest paragraph has is enough to refuse a longer one.
const MOST_CLASSES: usize = classes::LONGEST + 1;

// Answers how many bytes of output there are. A buffer that might not hold them is left alone, and the
// answer is 0, so that no output is ever cut short.
pub fn print_line(line: &[u8], out: &mut [u8]) -> usize
    ensures prefix_len { IsPrefixLen result out.new }
    ensures prints { Prints line.now out.old result out.new }
{
    if out.len() < MOST_OUTPUT {
        return 0;
    }
    let mut output = Output { out, at: 0 };
    put_line(line, &mut output);
    output.at
}

fn put_line(line: &[u8], output: &mut Output<'_>)
    ensures { Writes (line_text line.now) output.old output.new }
{
    let mut classes = [0u8; MOST_CLASSES];
    let count = words::read_classes(line, &mut classes);
    put_paragraph(&classes[..count], words::read_request(line), output);
}

fn put_paragraph(classes: &[u8], asked: Asked, output: &mut Output<'_>)
    ensures { Writes (paragraph_text asked.request asked.fallback classes.now) output.old output.new }
{
    let mut levels = [0u8; classes::LONGEST];
    match melvorash::resolve_levels(classes, asked.request, asked.fallback, &mut levels) {
        Ok(base) => put_resolved(classes, &levels, base, output),
        Err(refusal) => put_refusal(refusal, output),
    }
}

fn put_refusal(refusal: Refusal, output: &mut Output<'_>)
    ensures { Writes (refused_row (number_of refusal) (place_of refusal)) output.old output.new }
{
    output.put_refused_row(refusal.number(), refusal.place());
}

// The whole paragraph is one line. Order never refuses what Resolve wrote.
fn put_resolved(classes: &[u8], levels: &[u8], base: u8, output: &mut Output<'_>)
    requires { checks_of_line classes.now levels.now base 0 (length classes.now) longest_paragraph ≡ sound }
    ensures { Writes (paragraph_rows base (take (length classes.now) levels.now) (line_order base classes.now levels.now 0 (length classes.now))) output.old output.new }
{
    let n = classes.len();
    let mut order = [0u16; classes::LONGEST];
    match melvorash::order_line(classes, levels, base, 0, n, &mut order) {
        Ok(placed) => put_rows(base, &levels[..n], &order[..placed.count], output),
        Err(refusal) => put_refusal(refusal, output),
    }
}

fn put_rows(base: u8, levels: &[u8], order: &[u16], output: &mut Output<'_>)
    ensures { Writes (paragraph_rows base levels.now order.now) output.old output.new }
{
    output.put_base_row(base);
    output.put_levels_row(levels);
    output.put_order_row(order);
}
