// The drawing order of marks: canonical ordering, then the steps of Arabic mark rendering. The job
// checks its input and refuses it with a number, and then has altered nothing.
#![tactic(auto)]

mod draw;

ghost use Rattle.marks.specs.Answers.{marks_page, DrawsMarks};

use draw::draw;
use refusals::Refusal;

// The order in which the characters are drawn, from their combining classes and a flag for each that is not 0 where it is a
// modifier mark. Answers how many characters were put in drawing order.
#[tactic(auto, using(crate::proofs::JobLaws::marks_laws))]
pub fn drawing_order(classes: &[u8], flags: &[u8], order: &mut [u16]) -> Result<usize, Refusal>
    ensures { DrawsMarks classes.now flags.now order.old (marks_page result) order.new }
{
    checks::check_marks(classes, flags.len(), order.len())?;
    draw(classes, flags, order);
    Ok(classes.len())
}
