// Text out, and hexadecimal in and out.
ghost use Rattle.std.specs.Prelude.{◌<◌, ◌≤◌, length};

use std::fmt;

// The most bytes that a line has in hexadecimal.
pub const LONGEST: usize = 4096;

pub fn yes_or_no(b: bool) -> &'static str {
    if b { "yes" } else { "no" }
}

// The number of a hexadecimal digit.
fn digit(b: u8) -> u8
    ensures { result < 16 }
{
    match b {
        b'0'..=b'9' => b - b'0',
        b'a'..=b'f' => b - b'a' + 10,
        _ => 0,
    }
}

// The bytes of a text of hexadecimal digits, as many as there is room for.
pub fn decode<'a>(text: &[u8], room: &'a mut [u8]) -> &'a [u8]
    ensures { length result.now ≤ length room.old }
{
    let n = room.len().min(text.len() / 2);
    let (pairs, _) = text.as_chunks::<2>();
    for (byte, [high, low]) in room.iter_mut().zip(pairs) {
        *byte = digit(*high) * 16 + digit(*low);
    }
    &room[..n]
}

// The bytes in hexadecimal, or - where there are none.
#[derive(Clone, Copy)]
pub struct Hex<'a>(pub &'a [u8]);

impl<'a> fmt::Display for Hex<'a> {
    fn fmt<W: fmt::Write>(&self, f: &mut fmt::Formatter<W>) -> fmt::Result {
        if self.0.is_empty() {
            return write!(f, "-");
        }
        for b in self.0 {
            write!(f, "{b:02x}")?;
        }
        Ok(())
    }
}
