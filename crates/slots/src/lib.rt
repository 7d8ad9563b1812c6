// How many positions the passes of reversal reverse, computed from the levels alone; the passes are not walked.
#![tactic(auto)]

ghost use Rattle.std.specs.Prelude.{◌≡◌, ◌≤◌, length};
ghost use Rattle.rules.specs.Refusals.{longest_paragraph};
ghost use Rattle.rules.specs.Reversals.{slots};

// Each pass from a position's level down to the lowest odd one reverses it. A straight sum in 32 bits, so that many
// places are read at once.
pub fn reversed(levels: &[u8], lowest: u8) -> usize
    requires le_lowest { 1 ≤ lowest }
    requires levels_len_bound { length levels.now ≤ longest_paragraph }
    ensures { result ≡ slots lowest levels.now }
{
    let below_lowest = lowest - 1;
    let total: u32 = levels
        .iter()
        .map(|level| u32::from(level.saturating_sub(below_lowest)))
        .sum();
    total as usize // 32 bits: no `From` for a width that a machine chooses
}
