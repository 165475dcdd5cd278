// The lines of the report. Each function writes from a place on and answers the place behind what it wrote.
ghost use Rattle.std.specs.Prelude.{◌≡◌, [], ◌∷◌, ◌++◌, ◌+◌, ◌≤◌, length};
ghost use Rattle.day.specs.Report.{digit_count, DecimalFewest, decimal, most_digits, longest_line, heading, report_line, last_word, last_line, space, Put};

use octets::{copy_at, digits_at};

// The most digits of a number of 64 bits.
const MOST_DIGITS: usize = 20;

// Four numbers, each with the byte behind it.
pub const LONGEST_LINE: usize = 4 * (MOST_DIGITS + 1);

// The number of digits of n.
#[tactic(auto, unfolding(crate::specs::Report::digit_count), using(crate::proofs::ReportLaws::digits_turn))]
fn digit_count(n: u64) -> usize
    ensures value { (result ≡ digit_count n) × (result ≤ most_digits) }
    ensures decimal_fewest { DecimalFewest }
{
    let mut rest = n;
    for count in 1..MOST_DIGITS {
        if rest < 10 {
            return count;
        }
        rest /= 10;
    }
    MOST_DIGITS
}

// A text and the byte behind it.
fn put_text(out: &mut [u8], at: usize, s: &[u8], end: u8) -> usize
    requires { at + (length s.now + 1) ≤ length out.old }
    ensures { Put out.old at (s.now ++ (end ∷ [])) out.new result }
{
    copy_at(out, at, s);
    let next = at + s.len();
    out[next] = end;
    next + 1
}

// A number and the byte behind it.
// Stays: digits put one by one and no `write!`: what `fmt` writes is nothing that a proof knows.
fn put_number(out: &mut [u8], at: usize, n: u64, end: u8) -> usize
    requires { at + (most_digits + 1) ≤ length out.old }
    ensures put { Put out.old at (decimal n ++ (end ∷ [])) out.new result }
    ensures upper_bound { result ≤ at + (most_digits + 1) }
{
    let count = digit_count(n);
    digits_at(out, at, count, n);
    let next = at + count;
    out[next] = end;
    next + 1
}

// Stays: the room behind `at` is asked of each function, no type for buffer and end: the end moves on with each piece that is put.
// The first line.
pub fn write_heading(out: &mut [u8], at: usize) -> usize
    requires { at + longest_line ≤ length out.old }
    ensures put { Put out.old at heading out.new result }
    ensures upper_bound { result ≤ at + longest_line }
{
    let verdict = put_text(out, at, b"message", b' ');
    let element = put_text(out, verdict, b"verdict", b' ');
    let record = put_text(out, element, b"element", b' ');
    put_text(out, record, b"record", b'\n')
}

// The line of a message.
pub fn write_line(
    out: &mut [u8],
    at: usize,
    position: u64,
    verdict: u8,
    element: u8,
    identifier: u64,
) -> usize
    requires { at + longest_line ≤ length out.old }
    ensures put { Put out.old at (report_line position verdict element identifier) out.new result }
    ensures upper_bound { result ≤ at + longest_line }
{
    let second = put_number(out, at, position, b' ');
    let third = put_number(out, second, verdict as u64, b' ');
    let fourth = put_number(out, third, element as u64, b' ');
    put_number(out, fourth, identifier, b'\n')
}

// The word that opens the last line.
#[tactic(auto, unfolding(octets::specs::Text::text))]
fn put_word(out: &mut [u8], at: usize, is_cut: bool) -> usize
    requires { at + (most_digits + 1) ≤ length out.old }
    ensures put { Put out.old at (last_word is_cut ++ (space ∷ [])) out.new result }
    ensures upper_bound { result ≤ at + (most_digits + 1) }
{
    let word = if is_cut { b"cut" } else { b"end" };
    put_text(out, at, word, b' ')
}

// The last line.
pub fn write_last(out: &mut [u8], at: usize, is_cut: bool, judged: u64, published: u64) -> usize
    requires { at + longest_line ≤ length out.old }
    ensures put { Put out.old at (last_line is_cut judged published) out.new result }
    ensures upper_bound { result ≤ at + longest_line }
{
    let second = put_word(out, at, is_cut);
    let third = put_number(out, second, judged, b' ');
    put_number(out, third, published, b'\n')
}
