// The fields of a line, with a space between them, by their place counted from 0; a field that the line has not is empty.
ghost use Rattle.std.specs.Prelude.{◌≤◌, length};

use crate::text;

pub fn field_at<'a>(line: &'a [u8], k: usize) -> &'a [u8] {
    line.split(|b| *b == b' ').nth(k).unwrap_or(b"")
}

// What stands behind the first space, if there is one.
pub fn rest_of<'a>(line: &'a [u8]) -> &'a [u8] {
    match line.iter().position(|b| *b == b' ') {
        Some(space) => &line[space + 1..],
        None => b"",
    }
}

// A decimal number; one that does not fit 64 bits counts as the largest that does.
pub fn number_at(line: &[u8], k: usize) -> u64 {
    let mut n: u64 = 0;
    for b in field_at(line, k) {
        let digit = b.saturating_sub(b'0') % 10;
        n = n.saturating_mul(10).saturating_add(u64::from(digit));
    }
    n
}

// The bytes of a field of # and hexadecimal digits, as many as there is room for.
pub fn bytes_at<'a>(line: &[u8], k: usize, room: &'a mut [u8]) -> &'a [u8]
    ensures { length result.now ≤ length room.old }
{
    let field = field_at(line, k);
    text::decode(field.get(1..).unwrap_or(b""), room)
}
