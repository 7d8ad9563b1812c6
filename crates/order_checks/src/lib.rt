// The checks of Order, of one line and of all lines, made before anything is written. Each answers what the definition of
// that check says, in the page's numbers and places.
#![tactic(auto)]

mod levels;

ghost use Rattle.std.specs.Prelude.{◌≡◌, ◌-◌, length};
ghost use Rattle.rules.specs.Refusals.{◌and_then◌, check_base, check_level_room, first_bad_level, check_line, check_ends, check_order_room, ends_rise_to, checks_of_order, checks_of_line, checks_of_lines};
ghost use Rattle.refusals.specs.Page.{check_of};

use levels::first_bad_level;
use refusals::Refusal;

// 5, 6, then 7: the base and the levels that Order is lent. They come beside the classes, each by itself, as C lends them.
#[tactic(auto, using(laws::proofs::Tests::tests), unfolding(rules::specs::Refusals::check_base, rules::specs::Refusals::check_level_room))]
fn check_lent(classes: &[u8], levels: &[u8], base: u8) -> Result<(), Refusal>
    ensures { check_of result ≡ (check_base base and_then check_level_room classes.now (length levels.now) and_then first_bad_level 0 classes.now levels.now) }
{
    if 1 < base {
        return Err(Refusal::BadBase);
    }
    if levels.len() < classes.len() {
        return Err(Refusal::ShortLevels);
    }
    first_bad_level(classes, levels)
}

// The checks that both forms of Order begin with.
fn check_order(classes: &[u8], levels: &[u8], base: u8) -> Result<(), Refusal>
    ensures { check_of result ≡ checks_of_order classes.now levels.now base }
{
    checks::check_classes(classes)?;
    check_lent(classes, levels, base)
}

// 8, then 9 for one line; `places` is how many places the order buffer has.
#[tactic(auto, using(laws::proofs::Tests::tests), unfolding(rules::specs::Refusals::check_line, rules::specs::Refusals::check_order_room))]
fn check_places(classes: &[u8], from: usize, to: usize, places: usize) -> Result<(), Refusal>
    ensures { check_of result ≡ (check_line classes.now from to and_then check_order_room (to - from) places) }
{
    if to <= from || classes.len() < to {
        return Err(Refusal::BadLine);
    }
    if places < to - from {
        return Err(Refusal::ShortOrder);
    }
    Ok(())
}

// The checks of one line.
pub fn check_line(
    classes: &[u8],
    levels: &[u8],
    base: u8,
    from: usize,
    to: usize,
    places: usize,
) -> Result<(), Refusal>
    ensures { check_of result ≡ checks_of_line classes.now levels.now base from to places }
{
    check_order(classes, levels, base)?;
    check_places(classes, from, to, places)
}

// Whether the ends rise strictly from above 0 to the last.
pub(crate) fn ends_rise(ends: &[u16], last: usize) -> bool
    ensures { result ≡ ends_rise_to 0 ends.now last }
{
    let mut before: usize = 0;
    for end in ends {
        let end = usize::from(*end);
        if end <= before {
            return false;
        }
        before = end;
    }
    before == last
}

// 10, then 9 for all lines.
#[tactic(auto, using(laws::proofs::Tests::tests, crate::proofs::EndLaws::ends_laws), unfolding(rules::specs::Refusals::check_order_room))]
fn check_ends(classes: &[u8], ends: &[u16], places: usize) -> Result<(), Refusal>
    ensures { check_of result ≡ (check_ends classes.now ends.now and_then check_order_room (length classes.now) places) }
{
    if ends.is_empty() || !ends_rise(ends, classes.len()) {
        return Err(Refusal::BadEnds);
    }
    if places < classes.len() {
        return Err(Refusal::ShortOrder);
    }
    Ok(())
}

// The checks of all lines.
pub fn check_lines(
    classes: &[u8],
    levels: &[u8],
    base: u8,
    ends: &[u16],
    places: usize,
) -> Result<(), Refusal>
    ensures { check_of result ≡ checks_of_lines classes.now levels.now base ends.now places }
{
    check_order(classes, levels, base)?;
    check_ends(classes, ends, places)
}
