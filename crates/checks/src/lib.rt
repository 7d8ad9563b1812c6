// The checks of a paragraph's classes, of a request for its levels and of a text with marks, made before anything is
// written. Each finds what the definition of that check says, in the page's numbers and places.
#![tactic(auto)]

mod faults;

ghost use Rattle.std.specs.Prelude.{◌≡◌};
ghost use Rattle.rules.specs.Refusals.{◌and_then◌, check_some, check_length, check_classes, check_request, check_level_room, checks_of_levels, check_mark_room, checks_of_marks};
ghost use Rattle.refusals.specs.Page.{check_of};

use classes::LONGEST;
use faults::first_fault;
pub use faults::is_fault;
use refusals::Refusal;

// What every job but Cut asks of the count of classes: 1, then 3.
#[tactic(auto, using(laws::proofs::Tests::tests, crate::proofs::CountLaws::count_laws))]
pub(crate) fn check_count(classes: &[u8]) -> Result<(), Refusal>
    ensures { check_of result ≡ (check_some classes.now and_then check_length classes.now) }
{
    if classes.is_empty() {
        return Err(Refusal::NoClasses);
    }
    if LONGEST < classes.len() {
        return Err(Refusal::TooLong);
    }
    Ok(())
}

// What the jobs of a paragraph ask of its classes: 1, 3, then 2 or 4.
pub fn check_classes(classes: &[u8]) -> Result<(), Refusal>
    ensures { check_of result ≡ check_classes classes.now }
{
    check_count(classes)?;
    first_fault(classes)
}

// 5, then 6; `room` is how many positions the level buffer has. Request and default come as two bytes, as C gives them. The default is checked also where it will not be used.
#[tactic(auto, using(laws::proofs::Tests::tests), unfolding(rules::specs::Refusals::check_request, rules::specs::Refusals::check_level_room))]
fn check_request(classes: &[u8], request: u8, fallback: u8, room: usize) -> Result<(), Refusal>
    ensures { check_of result ≡ (check_request request fallback and_then check_level_room classes.now room) }
{
    if 2 < request || 1 < fallback {
        return Err(Refusal::BadBase);
    }
    if room < classes.len() {
        return Err(Refusal::ShortLevels);
    }
    Ok(())
}

// The checks of Explicit and Resolve.
pub fn check_levels(classes: &[u8], request: u8, fallback: u8, room: usize) -> Result<(), Refusal>
    ensures { check_of result ≡ checks_of_levels classes.now request fallback room }
{
    check_classes(classes)?;
    check_request(classes, request, fallback, room)
}

// 16; `flags` and `places` are how many flags and places Marks is lent.
#[tactic(auto, using(laws::proofs::Tests::tests), unfolding(rules::specs::Refusals::check_mark_room))]
fn check_mark_room(classes: &[u8], flags: usize, places: usize) -> Result<(), Refusal>
    ensures { check_of result ≡ check_mark_room classes.now flags places }
{
    if flags < classes.len() || places < classes.len() {
        return Err(Refusal::ShortBuffer);
    }
    Ok(())
}

// The checks of Marks.
pub fn check_marks(classes: &[u8], flags: usize, places: usize) -> Result<(), Refusal>
    ensures { check_of result ≡ checks_of_marks classes.now flags places }
{
    check_count(classes)?;
    check_mark_room(classes, flags, places)
}
