// A paragraph with nothing removed: one run at the base level, whose types are its classes.
ghost use Rattle.std.specs.Prelude.{◌≡◌, false, ◌≤◌, length};
ghost use Rattle.rules.specs.Classes.{is_removed};
ghost use Rattle.laws.specs.Parts.{over};
ghost use Rattle.rules.specs.Resolve.{resolved_levels};
ghost use Rattle.laws.specs.Any.{any_of};

use parts::Sides;

// Beyond both its ends the level is the base too.
pub(crate) fn resolve_plain(classes: &[u8], base: u8, levels: &mut [u8], types: &mut [u8])
    requires base_bound { (base ≤ 1) × (length classes.now ≤ length levels.old) × (length classes.now ≤ length types.old) }
    requires classes_value { any_of is_removed classes.now ≡ false }
    ensures { levels.new ≡ over (resolved_levels base classes.now) levels.old }
{
    let count = classes.len();
    let side = runs::boundary_type(base, base);
    let sides = Sides {
        sor: side,
        eor: side,
    };
    parts::copy(classes, types);
    runs::resolve_run(&mut types[..count], &mut levels[..count], base, sides);
}
