// The price or the spread in a tape line, codes 17 and 26: specification, clause 7.4.
#![tactic(auto)]

ghost use Rattle.std.specs.Prelude.{◌≡◌, ℕ, ◌+◌, ◌≤◌, List, ◌++◌, length};
ghost use Rattle.octets.specs.Part.{splice};
ghost use Rattle.octets.specs.Field.{field, FieldHolds};
ghost use Rattle.price.specs.Price.{drop_zeros, trim_zeros, shown_whole, shown_decimals, is_zero, shows_minus, shown_sign, shown_price};
ghost use Rattle.price.specs.Laws.{PriceLaws};

use numbers::{decimals_of, unsigned_of, whole_of};
use octets::{append, byte_at, fill};

// The digits before the point without their leading zeros.
#[tactic(auto, unfolding(crate::specs::Price::drop_zeros))]
fn drop_zeros(w: &[u8]) -> &[u8]
    ensures { result.now ≡ drop_zeros w.now }
{
    let mut left = w;
    while let [b'0', rest @ ..] = left {
        left = rest;
    }
    left
}

// The digits after the point without their trailing zeros.
#[tactic(auto, using(crate::proofs::PriceLaws::trim_turn, crate::proofs::PriceLaws::trim_none))]
fn trim_zeros(d: &[u8]) -> &[u8]
    ensures { result.now ≡ trim_zeros d.now }
{
    let mut left = d;
    while let [front @ .., b'0'] = left {
        left = front;
    }
    left
}

// Whether the number is zero.
#[tactic(auto, using(crate::proofs::PriceLaws::zero_left))]
fn is_zero(v: &[u8]) -> bool
    ensures { result ≡ is_zero v.now }
{
    let u = unsigned_of(v);
    drop_zeros(whole_of(u)).is_empty() && trim_zeros(decimals_of(u)).is_empty()
}

// Whether the line shows a minus: not before a zero.
#[tactic(auto, unfolding(crate::specs::Price::shows_minus))]
fn shows_minus(v: &[u8]) -> bool
    ensures { result ≡ shows_minus v.now }
{
    byte_at(v, 0) == b'-' && !is_zero(v)
}

// The minus, or nothing.
#[tactic(auto, unfolding(crate::specs::Price::shown_sign, octets::specs::Text::text))]
fn sign_of(v: &[u8]) -> &'static [u8]
    ensures { result.now ≡ shown_sign v.now }
{
    if shows_minus(v) { b"-" } else { b"" }
}

// Appends the digits before the point to the text in dst.
fn append_whole(dst: &mut [u8], at: usize, w: &[u8]) -> usize
    ensures { (n : ℕ) (xs : List ℕ) → FieldHolds n xs dst.old at → FieldHolds n (xs ++ shown_whole w.now) dst.new result }
{
    let kept = drop_zeros(w);
    if kept.is_empty() {
        return append(dst, at, b"0");
    }
    append(dst, at, kept)
}

// Appends a point and the digits after it to the text in dst.
fn append_decimals(dst: &mut [u8], at: usize, d: &[u8]) -> usize
    ensures { (n : ℕ) (xs : List ℕ) → FieldHolds n xs dst.old at → FieldHolds n (xs ++ shown_decimals d.now) dst.new result }
{
    let rest = trim_zeros(d);
    if rest.is_empty() {
        return at;
    }
    let next = append(dst, at, b".");
    append(dst, next, rest)
}

// Writes the price into dst, left aligned, and spaces behind it.
pub fn write_price(dst: &mut [u8], v: &[u8])
    ensures dst_after { dst.new ≡ field (length dst.old) (shown_price v.now) }
    ensures price_laws { PriceLaws }
{
    let u = unsigned_of(v);
    fill(dst, b' ');
    let whole = append(dst, 0, sign_of(v));
    let point = append_whole(dst, whole, whole_of(u));
    append_decimals(dst, point, decimals_of(u));
}

// Writes the price into the field of n bytes from `at` on.
pub fn price_at(dst: &mut [u8], at: usize, n: usize, v: &[u8])
    requires { at + n ≤ length dst.old }
    ensures { dst.new ≡ splice dst.old at (field n (shown_price v.now)) }
{
    write_price(&mut dst[at..at + n], v);
}
