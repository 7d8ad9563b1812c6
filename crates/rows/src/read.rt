// Reads a row: its fields stand between semicolons, the words of a field between spaces, and the first word of a field
// is its name. The word `L*3` stands for three L.
ghost use Rattle.std.specs.Iterator.{IsFinite};
ghost use Rattle.std.specs.Prelude.{◌≤◌, ◌≡◌, length};

// A part as std's `split_inclusive` gives it, with no separator at its end.
pub(crate) fn unended(part: &[u8], separator: u8) -> &[u8] {
    part.strip_suffix([separator].as_slice()).unwrap_or(part)
}

// The field of a number, empty past the last.
pub(crate) fn field(row: &[u8], number: usize) -> &[u8] {
    row.split(|b| *b == b';').nth(number).unwrap_or(&[])
}

// What stands behind the first separator, nothing where there is none.
fn behind(text: &[u8], separator: u8) -> &[u8] {
    text.splitn(2, |b| *b == separator).nth(1).unwrap_or(&[])
}

// The number behind a field's name, 0 where there is none.
pub(crate) fn number(field: &[u8]) -> u16 {
    digits(behind(field, words::SPACE))
}

// A number of at most four digits. A digit's byte has its value in the last four bits.
fn digits(word: &[u8]) -> u16 {
    word.iter()
        .fold(0, |n, b| n % 1000 * 10 + u16::from(b % 16))
}

// A class by its name, or a byte by its digits, of which the lowest bits count.
fn value(word: &[u8]) -> u8 {
    match words::class_named(word) {
        words::UNKNOWN_NAME => (digits(word) % 256) as u8,
        class => class,
    }
}

// What a word of classes or levels stands for, and how many times: once at least.
fn repeated(part: &[u8]) -> (u8, usize) {
    let word = unended(part, words::SPACE);
    let name = word.split(|b| *b == b'*').next().unwrap_or(word);
    let times = digits(behind(word, b'*')).max(1);
    (value(name), usize::from(times))
}

// Each value so many times, as far as there is room: the part of the room that is written, from its first place on.
fn written<'a, T: Copy, I: Iterator<Item = (T, usize)>>(values: I, room: &'a mut [T]) -> &'a mut [T]
    requires can { I.can_next values }
    requires ends { IsFinite (I.remaining values) }
    ensures front { result.ref_ptr ≡ room.entry.ref_ptr }
    ensures within { length result.now ≤ length room.old }
{
    let mut count = 0;
    for (value, times) in values {
        let left = &mut room[count..];
        let more = times.min(left.len());
        // std's `fill` clones, and of any T it is not known that a clone cannot fail.
        for place in &mut left[..more] {
            *place = value;
        }
        count += more;
    }
    &mut room[..count]
}

// The bytes behind a field's name.
pub(crate) fn bytes<'a>(field: &[u8], room: &'a mut [u8]) -> &'a mut [u8]
    ensures front { result.ref_ptr ≡ room.entry.ref_ptr }
    ensures within { length result.now ≤ length room.old }
{
    let list = behind(field, words::SPACE);
    let parts = list.split_inclusive(|b| *b == words::SPACE);
    written(parts.map(repeated), room)
}

// The numbers behind a field's name.
pub(crate) fn numbers<'a>(field: &[u8], room: &'a mut [u16]) -> &'a mut [u16]
    ensures front { result.ref_ptr ≡ room.entry.ref_ptr }
    ensures within { length result.now ≤ length room.old }
{
    let list = behind(field, words::SPACE);
    let parts = list.split_inclusive(|b| *b == words::SPACE);
    written(
        parts.map(|part| (digits(unended(part, words::SPACE)), 1)),
        room,
    )
}
