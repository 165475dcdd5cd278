// What a line shows of whole values, and which caps are let pass.
use crate::fields::{field_at, number_at};
use crate::text::yes_or_no;
use notional::LARGEST_CAP;
use std::io;
use std::io::Write;

pub fn say_is_cap(out: &mut impl Write, rest: &[u8]) -> io::Result<()> {
    write!(out, "{}", yes_or_no(notional::is_cap(number_at(rest, 0))))
}

// The price without its padding.
pub fn say_price(out: &mut impl Write, v: &[u8]) -> io::Result<()> {
    let mut text = [0u8; terms::PRICE_SIZE];
    price::write_price(&mut text, v);
    out.write_all(field_at(&text, 0))
}

// The rest is a cap, a space and an amount.
pub fn say_masked(out: &mut impl Write, rest: &[u8]) -> io::Result<()> {
    let cap = number_at(rest, 0);
    if LARGEST_CAP < cap {
        return write!(out, "?");
    }
    let masked = notional::mask(field_at(rest, 1), cap);
    let mut text = [0u8; terms::NOTIONAL_SIZE];
    octets::write_digits(&mut text, masked.units);
    out.write_all(&text)?;
    if masked.plus {
        return write!(out, "+");
    }
    Ok(())
}
