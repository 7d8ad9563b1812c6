// The way back from the kept positions' levels, packed to the front, to a level for each position.
ghost use Rattle.std.specs.Prelude.{◌≡◌, ◌++◌, ◌≤◌, length, take, drop};
ghost use Rattle.rules.specs.Explicit.{kept, put_back};

// Each position takes its level from the packed ones, from the last to the first, so that no level is
// overwritten before it is read. Where as many are packed as positions are left, all are in place.
pub(crate) fn put_back(classes: &[u8], levels: &mut [u8], count: usize)
    requires count_value { count ≡ length (kept classes.now classes.now) }
    requires classes_in_bounds { length classes.now ≤ length levels.old }
    ensures { levels.new ≡ put_back classes.now (take count levels.old) ++ drop (length classes.now) levels.old }
{
    let mut j = count;
    for i in (0..classes.len()).rev() {
        if i < j {
            return;
        }
        if classes::is_removed(classes[i]) {
            levels[i] = classes::REMOVED_LEVEL;
        } else {
            j -= 1;
            levels[i] = levels[j];
        }
    }
}
