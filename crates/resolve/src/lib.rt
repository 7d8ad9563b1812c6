// The resolved levels of a paragraph: X10, then W, N and I over each run of kept positions.
#![tactic(auto)]

ghost use Rattle.std.specs.Prelude.{◌≡◌, ◌≤◌, length};
ghost use Rattle.laws.specs.Parts.{over};
ghost use Rattle.rules.specs.Refusals.{longest_paragraph};
ghost use Rattle.rules.specs.Resolve.{resolved_levels};

mod plain;
mod scatter;

// Gather, resolve, put back. The level buffer holds the packed levels meanwhile, with their count, since there is no heap; `types` is room to work in. What is
// asked stands at each of these functions: a struct of what is lent would be taken apart again by every call.
fn resolve_gathered(classes: &[u8], base: u8, levels: &mut [u8], types: &mut [u8])
    requires { (base ≤ 1) × (length classes.now ≤ length levels.old) × (length classes.now ≤ length types.old) }
    ensures { levels.new ≡ over (resolved_levels base classes.now) levels.old }
{
    let count = explicit::gather(classes, base, levels, types);
    runs::resolve_kept(&mut types[..count], &mut levels[..count], base);
    scatter::put_back(classes, levels, count);
}

// Where nothing is removed there is nothing to gather and to put back. One function, lent a room of either size: a function
// whose own array the room is copies into it by a call of `memcpy`, which the archive does not ask for.
#[inline(never)]
fn resolve_in(classes: &[u8], base: u8, levels: &mut [u8], types: &mut [u8])
    requires { (base ≤ 1) × (length classes.now ≤ length levels.old) × (length classes.now ≤ length types.old) }
    ensures { levels.new ≡ over (resolved_levels base classes.now) levels.old }
{
    if parts::any_removed(classes) {
        resolve_gathered(classes, base, levels, types);
    } else {
        plain::resolve_plain(classes, base, levels, types);
    }
}

// Works in a room of so many places.
fn resolve_within<const ROOM: usize>(classes: &[u8], base: u8, levels: &mut [u8])
    requires base_bound { (base ≤ 1) × (length classes.now ≤ length levels.old) }
    requires room { (length classes.now ≤ ROOM) × (ROOM ≤ longest_paragraph) }
    ensures { levels.new ≡ over (resolved_levels base classes.now) levels.old }
{
    let mut types = [0u8; ROOM];
    resolve_in(classes, base, levels, &mut types);
}

// A short label does not pay for the room of the longest paragraph.
pub fn resolve_levels(classes: &[u8], base: u8, levels: &mut [u8])
    requires { (base ≤ 1) × (length classes.now ≤ length levels.old) × (length classes.now ≤ longest_paragraph) }
    ensures { levels.new ≡ over (resolved_levels base classes.now) levels.old }
{
    if classes.len() <= parts::SHORT {
        resolve_within::<{ parts::SHORT }>(classes, base, levels);
    } else {
        resolve_within::<{ classes::LONGEST }>(classes, base, levels);
    }
}
