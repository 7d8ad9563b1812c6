// Cut and Base: the first paragraph of the lent classes, and the base level of one.
ghost use Rattle.std.specs.Prelude.{◌≡◌, ◌<◌, length};
ghost use Rattle.rules.specs.Jobs.{cut_answer, cut_part, base_answer};
ghost use Rattle.melvorash.specs.Answers.{cut_page, base_page, part_length};
ghost use Rattle.melvorash.specs.Stops.{stop_at};

use refusals::Refusal;

// What Cut answers where its walk stops: at a class that is none, or at a separator. A CR takes the B along that follows it.
// The walk of Cut is at a position of the text, so one is asked for.
pub(crate) fn stop_at(classes: &[u8], i: usize) -> Result<usize, Refusal>
    requires { i < length classes.now }
    ensures { cut_page result ≡ stop_at classes.now i }
{
    if classes::is_unknown(classes[i]) {
        return Err(Refusal::UnknownClass(i));
    }
    if paragraph::is_pair(classes, i) {
        if i + 1 == classes::LONGEST {
            return Err(Refusal::TooLong);
        }
        return Ok(i + 2);
    }
    Ok(i + 1)
}

// The paragraph's length. At most 4,096 positions are looked at, and none after the paragraph but for a B after a CR.
pub fn cut(classes: &[u8]) -> Result<usize, Refusal>
    ensures { cut_page result ≡ cut_answer classes.now }
{
    if classes.is_empty() {
        return Err(Refusal::NoClasses);
    }
    for (i, class) in classes.iter().enumerate() {
        if i == classes::LONGEST {
            return Err(Refusal::TooLong);
        }
        if checks::is_fault(*class) {
            return stop_at(classes, i);
        }
    }
    Ok(classes.len())
}

// How long the part is that an answer gives: empty exactly where it refuses.
fn part_length(answer: Result<usize, Refusal>) -> usize
    ensures { result ≡ part_length (cut_page answer) }
{
    answer.unwrap_or(0)
}

// The paragraph itself, as the first part of the lent classes.
pub fn cut_part(classes: &[u8]) -> &[u8]
    ensures { result.now ≡ cut_part classes.now }
{
    let length = part_length(cut(classes));
    &classes[..length]
}

// The base level of one paragraph, by its text. That nothing decides it is an answer, so that a caller knows a guess.
#[tactic(auto, using(refusals::proofs::PageLaws::answer_handed, rules::proofs::JobLaws::answer_sound), unfolding(rules::specs::Jobs::base_answer, rules::specs::Refusals::checks_of_base))]
pub fn base(classes: &[u8]) -> Result<Option<u8>, Refusal>
    ensures { base_page result ≡ base_answer classes.now }
{
    checks::check_classes(classes)?;
    Ok(paragraph::base_by_text(classes))
}
