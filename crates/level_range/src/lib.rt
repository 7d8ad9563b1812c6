// The highest and the lowest of a line's levels, and the lowest odd one. Each fold looks at every level and stays with
// bytes, so that many are read at once; std's `max` and `min` over the levels take the first apart, which costs a short line
// more.
#![tactic(auto)]

ghost use Rattle.std.specs.Prelude.{◌≡◌, if◌then◌else◌};
ghost use Rattle.laws.specs.Choice.{is_odd};
ghost use Rattle.rules.specs.Line.{highest, lowest_odd};
ghost use Rattle.level_range.specs.Levels.{at_levels, lowest};

// The highest level, or 0 where there is none.
pub fn highest_level(levels: &[u8]) -> u8
    ensures { result ≡ highest (at_levels levels.now) }
{
    levels.iter().fold(0, |top, level| top.max(*level))
}

// The lowest level, or 255 where there is none, which no block of places is: an Option would be opened for nothing. One
// fold for this and for the highest would take `min` and `max` as closures, and be longer than the two.
pub fn lowest_level(levels: &[u8]) -> u8
    ensures { result ≡ lowest 255 levels.now }
{
    levels.iter().fold(255, |least, level| least.min(*level))
}

// An odd level is itself and an even one counts as 255, by numbers alone: no branch.
fn odd_or_highest(level: u8) -> u8
    ensures { result ≡ (if is_odd level then level else 255) }
{
    level.max((1 - level % 2) * 255)
}

// The lowest odd level, or 255 where there is none: then the highest is even, so below 255, and no pass is made. No Option:
// the one comparison with the highest level asks both whether there is one and whether a pass is to be made.
pub fn lowest_odd_level(levels: &[u8]) -> u8
    ensures { result ≡ lowest_odd 255 (at_levels levels.now) }
{
    levels
        .iter()
        .fold(255, |low, level| low.min(odd_or_highest(*level)))
}
