// Dates and times (specification, clauses 4.4 and 4.5): the forms of codes 4 to 9, and their order.
#![tactic(auto)]

ghost use Rattle.std.specs.Prelude.{◌≡◌, ◌<◌};
ghost use Rattle.dates.specs.Dates.{fits_byte, fits_pattern, digit_at, two_digits, leap, days_in, gregorian, names_date, is_date, is_time, before, DateOrder, TimeOrder};

use octets::byte_at;
use values::{Class, in_class, is_within};

const FIRST_YEAR: usize = 1900;

// A byte fits a place of a pattern.
fn fits_byte(p: u8, b: u8) -> bool
    ensures { result ≡ fits_byte p b }
{
    match p {
        b'0' => in_class(Class::Digit, b),
        _ => b == p,
    }
}

// A value fits a pattern, in which 0 stands for any digit and any other byte for itself.
#[tactic(auto, unfolding(crate::specs::Dates::fits_pattern))]
fn fits_pattern(v: &[u8], p: &[u8]) -> bool
    ensures { result ≡ fits_pattern p.now v.now }
{
    v.len() == p.len() && v.iter().zip(p).all(|(b, q)| fits_byte(*q, *b))
}

// The number of the digit at i; what stands below the digits counts 0.
fn digit_at(v: &[u8], i: usize) -> usize
    ensures { (result ≡ digit_at v.now i) × (result < 256) }
{
    usize::from(byte_at(v, i).saturating_sub(b'0'))
}

// The number of the two digits from i on.
#[tactic(auto, unfolding(crate::specs::Dates::two_digits))]
fn two_at(v: &[u8], i: usize) -> usize
    requires { i < 1000 }
    ensures { (result ≡ two_digits v.now i) × (result < 3000) }
{
    digit_at(v, i) * 10 + digit_at(v, i + 1)
}

#[tactic(auto, unfolding(crate::specs::Dates::leap))]
fn is_leap(y: usize) -> bool
    ensures { result ≡ leap y }
{
    y % 400 == 0 || (y % 4 == 0 && y % 100 != 0)
}

#[tactic(auto, unfolding(crate::specs::Dates::days_in))]
fn days_in(y: usize, m: usize) -> usize
    ensures { result ≡ days_in y m }
{
    match m {
        2 if is_leap(y) => 29,
        2 => 28,
        4 | 6 | 9 | 11 => 30,
        _ => 31,
    }
}

#[tactic(auto, unfolding(crate::specs::Dates::gregorian))]
fn is_gregorian(y: usize, m: usize, d: usize) -> bool
    ensures { result ≡ gregorian y m d }
{
    FIRST_YEAR <= y && is_within(1, 12, m) && is_within(1, days_in(y, m), d)
}

// The first ten bytes name a date.
#[tactic(auto, unfolding(crate::specs::Dates::names_date))]
fn names_date(v: &[u8]) -> bool
    ensures { result ≡ names_date v.now }
{
    is_gregorian(
        two_at(v, 0) * 100 + two_at(v, 2),
        two_at(v, 5),
        two_at(v, 8),
    )
}

#[tactic(auto, unfolding(octets::specs::Text::text, crate::specs::Dates::is_date))]
pub fn is_date(v: &[u8]) -> bool
    ensures { result ≡ is_date v.now }
{
    fits_pattern(v, b"0000-00-00") && names_date(v)
}

#[tactic(auto, unfolding(octets::specs::Text::text, crate::specs::Dates::is_time))]
pub fn is_time(v: &[u8]) -> bool
    ensures { result ≡ is_time v.now }
{
    fits_pattern(v, b"0000-00-00T00:00:00Z")
        && names_date(v)
        && two_at(v, 11) < 24
        && two_at(v, 14) < 60
        && two_at(v, 17) < 60
}

// Whether a date is before a date, or a time before a time.
#[tactic(auto, using(crate::proofs::OrderLaws::orders))]
pub fn is_before(a: &[u8], b: &[u8]) -> bool
    ensures value { result ≡ before a.now b.now }
    ensures date_order { DateOrder × TimeOrder }
{
    a < b
}
