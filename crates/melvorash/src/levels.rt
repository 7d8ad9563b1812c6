// Explicit and Resolve: a level for each position. Each writes the first levels of the lent buffer and answers the base level
// used: with request 2 that of the text, or else the default, `fallback`.
ghost use Rattle.rules.specs.Jobs.{levels_answer, explicit_buffer, resolve_buffer};
ghost use Rattle.melvorash.specs.Answers.{levels_page, Leaves};

use refusals::Refusal;

// The two jobs have one shape. Said once, the work would be a closure over the lent buffer whose contract repeats both promises.

// The levels as they stand after X1 to X9.
pub fn explicit_levels(
    classes: &[u8],
    request: u8,
    fallback: u8,
    levels: &mut [u8],
) -> Result<u8, Refusal>
    ensures { Leaves (levels_answer classes.now request fallback levels.old) (explicit_buffer classes.now request fallback levels.old) (levels_page result) levels.new }
{
    checks::check_levels(classes, request, fallback, levels.len())?;
    let base = paragraph::base_of(request, fallback, classes);
    explicit::explicit_levels(classes, base, levels);
    Ok(base)
}

// The levels as they stand after I1 and I2, before any line is known.
#[tactic(auto, using(crate::proofs::AnswerLaws::resolve_laws), unfolding(rules::specs::Jobs::levels_answer, rules::specs::Jobs::resolve_buffer))]
pub fn resolve_levels(
    classes: &[u8],
    request: u8,
    fallback: u8,
    levels: &mut [u8],
) -> Result<u8, Refusal>
    ensures { Leaves (levels_answer classes.now request fallback levels.old) (resolve_buffer classes.now request fallback levels.old) (levels_page result) levels.new }
{
    checks::check_levels(classes, request, fallback, levels.len())?; // what Explicit asks
    let used = paragraph::base_of(request, fallback, classes);
    resolve::resolve_levels(classes, used, levels);
    Ok(used)
}
