// Refusals 2 and 4: the first position of a paragraph that is at fault.
ghost use Rattle.std.specs.Prelude.{◌≡◌, ◌+◌, ◌<◌, length, get_or, drop};
ghost use Rattle.rules.specs.Refusals.{may_end, fault_at, first_fault};
ghost use Rattle.refusals.specs.Page.{check_of};
ghost use Rattle.checks.specs.Faults.{is_fault, closing_at};

use refusals::Refusal;

// Whether a separator may stand here: last, or as the CR of a last pair. The walk that asks is at a position of the text, so
// this and `fault_at` ask for one.
#[tactic(auto, using(laws::proofs::Tests::tests, crate::proofs::FaultLaws::may_end_laws))]
pub(crate) fn may_end(classes: &[u8], i: usize) -> bool
    requires { i < length classes.now }
    ensures { result ≡ may_end (get_or classes.now i 0) (drop (i + 1) classes.now) }
{
    match classes.len() - i - 1 {
        0 => true,
        1 => paragraph::is_pair(classes, i),
        _ => false,
    }
}

// At one position: a question of the list and the index, since a separator may stand last.
#[tactic(auto, using(laws::proofs::Tests::tests), unfolding(rules::specs::Refusals::fault_at))]
pub(crate) fn fault_at(classes: &[u8], i: usize) -> Result<(), Refusal>
    requires { i < length classes.now }
    ensures { check_of result ≡ fault_at i (get_or classes.now i 0) (drop (i + 1) classes.now) }
{
    let class = classes[i];
    if classes::is_unknown(class) {
        return Err(Refusal::UnknownClass(i));
    }
    if classes::is_paragraph_end(class) && !may_end(classes, i) {
        return Err(Refusal::EarlySeparator(i));
    }
    Ok(())
}

// The walk to the first faulty position from the left.
pub(crate) fn search_fault(classes: &[u8]) -> Result<(), Refusal>
    ensures { check_of result ≡ first_fault 0 classes.now }
{
    for i in 0..classes.len() {
        fault_at(classes, i)?;
    }
    Ok(())
}

// A class that is a fault before what closes a paragraph: where a walk over good classes stops. CR is the highest class, so
// one comparison finds it and every number that is none.
#[tactic(auto, using(laws::proofs::Tests::tests, crate::proofs::FaultLaws::fault_high, crate::proofs::FaultLaws::fault_low))]
pub fn is_fault(class: u8) -> bool
    ensures { result ≡ is_fault class }
{
    classes::CR <= class || class == classes::B
}

// Where what closes a paragraph begins: at the CR of a last pair, or else at the last position.
#[tactic(auto, using(crate::proofs::FaultLaws::closing_laws))]
pub(crate) fn closing_at(classes: &[u8]) -> usize
    requires { 0 < length classes.now }
    ensures { result ≡ closing_at classes.now }
{
    let last = classes.len() - 1;
    if 0 < last && paragraph::is_pair(classes, last - 1) {
        return last - 1;
    }
    last
}

// The first faulty position from the left. Almost always there is none, so the walk is made only where there is one
// before what closes the paragraph; the pair and the last position alone may be separators.
pub(crate) fn first_fault(classes: &[u8]) -> Result<(), Refusal>
    requires { 0 < length classes.now }
    ensures { check_of result ≡ first_fault 0 classes.now }
{
    let closing = closing_at(classes);
    if parts::any(&classes[..closing], is_fault) {
        return search_fault(classes);
    }
    fault_at(classes, closing)
}
