// Writing to standard output.
use std::fmt::Display;
use std::io;

// Each number behind a space.
pub(crate) fn numbers<T: Display>(rt: &impl Print, numbers: &[T]) -> io::Result<()> {
    for n in numbers {
        print!(rt; " {n}")?;
    }
    Ok(())
}

// A dash for the level of a removed position.
pub(crate) fn levels(rt: &impl Print, levels: &[u8]) -> io::Result<()> {
    for &level in levels {
        if level == classes::REMOVED_LEVEL {
            print!(rt; " -")?;
        } else {
            print!(rt; " {level}")?;
        }
    }
    Ok(())
}

// What stands between, where a buffer is not as it was lent.
pub(crate) fn not_unless_all<T: Copy + PartialEq>(buffer: &[T], lent: T) -> &'static str {
    if buffer.iter().all(|x| *x == lent) {
        ""
    } else {
        " not"
    }
}
