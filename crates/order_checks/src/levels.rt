// Refusal 7: the first lent level that does not fit its position.
ghost use Rattle.std.specs.Prelude.{◌≡◌, ◌≤◌, length};
ghost use Rattle.rules.specs.Refusals.{is_bad_level, first_bad_level};
ghost use Rattle.laws.specs.Any.{any_pair};
ghost use Rattle.refusals.specs.Page.{check_of};

use classes::HIGHEST_RESOLVED;
use refusals::Refusal;

// At one position.
#[tactic(auto, using(laws::proofs::Tests::tests), unfolding(rules::specs::Refusals::is_bad_level))]
pub(crate) fn is_bad_level(class: u8, level: u8) -> bool
    ensures { result ≡ is_bad_level class level }
{
    if classes::is_removed(class) {
        return level != classes::REMOVED_LEVEL;
    }
    HIGHEST_RESOLVED < level
}

// Whether any lent level is bad. It looks at every one: a loop that could stop at the first would read them one by one. The
// two slices are not zipped, which takes twice as long; so each of the three functions asks for as many levels as classes.
pub(crate) fn any_bad_level(classes: &[u8], levels: &[u8]) -> bool
    requires { length classes.now ≤ length levels.now }
    ensures { result ≡ any_pair is_bad_level classes.now levels.now }
{
    let mut bad = false;
    for (i, class) in classes.iter().enumerate() {
        bad |= is_bad_level(*class, levels[i]);
    }
    bad
}

// The walk to the first lent level that is bad, on the paragraph's positions alone. One walk for this and for the first fault
// of the classes would take the check as a closure, and save two lines.
pub(crate) fn search_bad_level(classes: &[u8], levels: &[u8]) -> Result<(), Refusal>
    requires { length classes.now ≤ length levels.now }
    ensures { check_of result ≡ first_bad_level 0 classes.now levels.now }
{
    for (i, class) in classes.iter().enumerate() {
        if is_bad_level(*class, levels[i]) {
            return Err(Refusal::BadLevel(i));
        }
    }
    Ok(())
}

// The first lent level that is bad: looked for only where there is one.
pub(crate) fn first_bad_level(classes: &[u8], levels: &[u8]) -> Result<(), Refusal>
    requires { length classes.now ≤ length levels.now }
    ensures { check_of result ≡ first_bad_level 0 classes.now levels.now }
{
    if any_bad_level(classes, levels) {
        return search_bad_level(classes, levels);
    }
    Ok(())
}
