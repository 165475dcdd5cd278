// Decimal numbers (specification, clauses 4.7 to 4.9): the forms of codes 17, 20 and 26.
#![tactic(auto)]

ghost use Rattle.std.specs.Prelude.{◌≡◌, ◌<◌, ◌≤◌, length, MatchOption};
ghost use Rattle.numbers.specs.Numbers.{point_in, whole_of, decimals_of, is_number, unsigned_of, is_price, is_notional};

use values::{Class, run_of};

const PRICE_DIGITS: usize = 18;

const PRICE_DECIMALS: usize = 13;

const NOTIONAL_DIGITS: usize = 25;

pub const NOTIONAL_DECIMALS: usize = 5;

// The place of the first point.
fn point_in(v: &[u8]) -> Option<usize>
    ensures { MatchOption result (length v.now ≤ point_in v.now) (λ p. (p ≡ point_in v.now) × (p < length v.now)) }
{
    v.iter().position(|b| *b == b'.')
}

// What stands before the first point, and what stands after it.
#[tactic(auto, unfolding(crate::specs::Numbers::whole_of, crate::specs::Numbers::decimals_of))]
fn parts_of<'a>(v: &'a [u8]) -> Option<(&'a [u8], &'a [u8])>
    ensures { MatchOption result (length v.now ≤ point_in v.now) (λ p. (point_in v.now < length v.now) × (p.0.now ≡ whole_of v.now) × (p.1.now ≡ decimals_of v.now)) }
{
    let p = point_in(v)?;
    Some((&v[..p], &v[p + 1..]))
}

// What stands before the point.
#[tactic(auto, unfolding(crate::specs::Numbers::whole_of))]
pub fn whole_of<'a>(v: &'a [u8]) -> &'a [u8]
    ensures { result.now ≡ whole_of v.now }
{
    match parts_of(v) {
        Some((whole, _)) => whole,
        None => v,
    }
}

// What stands after the point, nothing where there is none.
#[tactic(auto, unfolding(crate::specs::Numbers::decimals_of))]
pub fn decimals_of<'a>(v: &'a [u8]) -> &'a [u8]
    ensures { result.now ≡ decimals_of v.now }
{
    match parts_of(v) {
        Some((_, decimals)) => decimals,
        None => &[],
    }
}

// Num(digits, decimals).
#[tactic(auto, using(crate::proofs::NumbersLaws::whole_within))]
pub fn is_number(digits: usize, decimals: usize, v: &[u8]) -> bool
    ensures { result ≡ is_number digits decimals v.now }
{
    let whole = whole_of(v);
    // From the point on: what stands after it is found at once.
    let rest = &v[whole.len()..];
    match rest {
        [] => run_of(1, digits, Class::Digit, whole),
        _ => {
            let tail = decimals_of(rest);
            run_of(1, digits, Class::Digit, whole)
                && run_of(1, decimals, Class::Digit, tail)
                && whole.len() + tail.len() <= digits
        }
    }
}

// What follows an opening minus; all of it where there is none.
#[tactic(auto, unfolding(crate::specs::Numbers::unsigned_of))]
pub fn unsigned_of<'a>(v: &'a [u8]) -> &'a [u8]
    ensures { result.now ≡ unsigned_of v.now }
{
    match v {
        [b'-', rest @ ..] => rest,
        _ => v,
    }
}

#[tactic(auto, unfolding(crate::specs::Numbers::is_price))]
pub fn is_price(v: &[u8]) -> bool
    ensures { result ≡ is_price v.now }
{
    is_number(PRICE_DIGITS, PRICE_DECIMALS, unsigned_of(v))
}

pub fn is_notional(v: &[u8]) -> bool
    ensures { result ≡ is_notional v.now }
{
    is_number(NOTIONAL_DIGITS, NOTIONAL_DECIMALS, v)
}
