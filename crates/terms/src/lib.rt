// The masked terms of a full message (specification, clause 7.2): between the event time and the newline.
#![tactic(auto)]

ghost use Rattle.std.specs.Prelude.{◌≡◌, ◌+◌, ◌≤◌, [], ◌∷◌, length};
ghost use Rattle.octets.specs.Part.{splice};
ghost use Rattle.octets.specs.Field.{field};
ghost use Rattle.octets.specs.Fields.{written};
ghost use Rattle.elements.specs.Conditions.{kept};
ghost use Rattle.elements.specs.Codes.{notional_amount};
ghost use Rattle.notional.specs.Amount.{amount};
ghost use Rattle.notional.specs.Masking.{over, shown, largest_cap};
ghost use Rattle.price.specs.Price.{price_size};
ghost use Rattle.terms.specs.Terms.{mark_size, shown_truth, price_text, plus_text, date_fields, truth_fields, quote_fields, quote_size, notional_fields, terms_of, non_standardized_at, class_at, terms_size};
ghost use Rattle.terms.specs.Laws.{TermsLaws};

use elements::{
    ASSET_CLASS, BLOCK_ELECTION, CLEARED, EFFECTIVE_DATE, EXECUTION_TIMESTAMP, EXPIRATION_DATE,
    LARGE_NOTIONAL_ELECTION, MessageFacts, NON_STANDARDIZED_TERM, NOTIONAL_AMOUNT,
    NOTIONAL_CURRENCY, PACKAGE_INDICATOR, QuoteCodes, SETTLEMENT_LOCATION,
};
use notional::Masked;
use octets::field_at;
use values::{CURRENCY_SIZE, LOCATION_SIZE};

// Lengths of the fields.
pub const TIME_SIZE: usize = 20;

const DATE_SIZE: usize = 10;

const MARK_SIZE: usize = 1;

pub const PRICE_SIZE: usize = 20;

// A price or a spread, its notation, its currency.
const QUOTE_SIZE: usize = PRICE_SIZE + MARK_SIZE + CURRENCY_SIZE;

const CLASS_SIZE: usize = 2;

pub const NOTIONAL_SIZE: usize = 16;

// Where each field starts in the terms.
const EXECUTION_AT: usize = 0;

const EFFECTIVE_AT: usize = EXECUTION_AT + TIME_SIZE;

const EXPIRATION_AT: usize = EFFECTIVE_AT + DATE_SIZE;

const CLEARED_AT: usize = EXPIRATION_AT + DATE_SIZE;

const NON_STANDARDIZED_AT: usize = CLEARED_AT + MARK_SIZE;

const BLOCK_AT: usize = NON_STANDARDIZED_AT + MARK_SIZE;

const LARGE_AT: usize = BLOCK_AT + MARK_SIZE;

const PACKAGE_AT: usize = LARGE_AT + MARK_SIZE;

const PRICE_AT: usize = PACKAGE_AT + MARK_SIZE;

const CLASS_AT: usize = PRICE_AT + QUOTE_SIZE;

const NOTIONAL_AT: usize = CLASS_AT + CLASS_SIZE;

const PLUS_AT: usize = NOTIONAL_AT + NOTIONAL_SIZE;

const NOTIONAL_CURRENCY_AT: usize = PLUS_AT + MARK_SIZE;

const LOCATION_AT: usize = NOTIONAL_CURRENCY_AT + CURRENCY_SIZE;

const SPREAD_AT: usize = LOCATION_AT + LOCATION_SIZE;

// The size of the terms.
pub const SIZE: usize = SPREAD_AT + QUOTE_SIZE;

// Writes the value of an element; spaces where it is missing or left out.
// Stays: buffer, place and message apart: the buffer is written and the message read, and the place is another at each call.
fn text_at(dst: &mut [u8], at: usize, n: usize, m: &MessageFacts, code: u8)
    requires n_in_bounds { at + n ≤ length dst.old }
    ensures { dst.new ≡ splice dst.old at (field n (kept code m.now.message.now)) }
{
    field_at(dst, at, n, m.kept(code));
}

// T or F for a truth; a space where there is none.
#[tactic(auto, unfolding(crate::specs::Terms::shown_truth, octets::specs::Field::field, octets::specs::Text::text))]
fn truth_mark(v: &[u8]) -> u8
    ensures { result ∷ [] ≡ field mark_size (shown_truth v.now) }
{
    if v.is_empty() {
        return b' ';
    }
    if values::is_true(v) { b'T' } else { b'F' }
}

// Writes T or F for a truth; a space where it is missing or left out.
#[tactic(auto, using(crate::proofs::TermLaws::mark_written))]
fn truth_at(dst: &mut [u8], at: usize, m: &MessageFacts, code: u8)
    requires mark_size_in_bounds { at + mark_size ≤ length dst.old }
    ensures { dst.new ≡ splice dst.old at (field mark_size (shown_truth (kept code m.now.message.now))) }
{
    dst[at] = truth_mark(m.kept(code));
}

// Writes a price or a spread; spaces where it is missing or left out.
#[tactic(auto, using(crate::proofs::TermLaws::price_none, crate::proofs::TermLaws::price_some))]
fn price_at(dst: &mut [u8], at: usize, m: &MessageFacts, code: u8)
    requires price_size_in_bounds { at + price_size ≤ length dst.old }
    ensures { dst.new ≡ splice dst.old at (field price_size (price_text (kept code m.now.message.now))) }
{
    let v = m.kept(code);
    if v.is_empty() {
        field_at(dst, at, PRICE_SIZE, v);
        return;
    }
    price::price_at(dst, at, PRICE_SIZE, v);
}

// Writes a plus sign or a blank.
#[tactic(auto, using(crate::proofs::TermLaws::mark_written), unfolding(crate::specs::Terms::plus_text, octets::specs::Field::field, octets::specs::Text::text))]
fn plus_at(dst: &mut [u8], at: usize, plus: bool)
    requires { at + mark_size ≤ length dst.old }
    ensures { dst.new ≡ splice dst.old at (field mark_size (plus_text plus)) }
{
    dst[at] = if plus { b'+' } else { b' ' };
}

// Execution time, effective and expiration date, Cleared.
#[tactic(auto, using(crate::proofs::TermLaws::four_written))]
fn write_dates(dst: &mut [u8; SIZE], m: &MessageFacts)
    ensures { dst.new ≡ written 0 (date_fields m.now.message.now) dst.old }
{
    text_at(dst, EXECUTION_AT, TIME_SIZE, m, EXECUTION_TIMESTAMP);
    text_at(dst, EFFECTIVE_AT, DATE_SIZE, m, EFFECTIVE_DATE);
    text_at(dst, EXPIRATION_AT, DATE_SIZE, m, EXPIRATION_DATE);
    text_at(dst, CLEARED_AT, MARK_SIZE, m, CLEARED);
}

// Non-standardized term, block and large notional election, package.
#[tactic(auto, using(crate::proofs::TermLaws::four_written))]
fn write_truths(dst: &mut [u8; SIZE], m: &MessageFacts)
    ensures { dst.new ≡ written non_standardized_at (truth_fields m.now.message.now) dst.old }
{
    truth_at(dst, NON_STANDARDIZED_AT, m, NON_STANDARDIZED_TERM);
    truth_at(dst, BLOCK_AT, m, BLOCK_ELECTION);
    truth_at(dst, LARGE_AT, m, LARGE_NOTIONAL_ELECTION);
    truth_at(dst, PACKAGE_AT, m, PACKAGE_INDICATOR);
}

// A price or a spread, its notation and its currency.
#[tactic(auto, using(octets::proofs::FieldRun::then_written, octets::proofs::FieldRun::last_written))]
fn write_quote(dst: &mut [u8], at: usize, m: &MessageFacts, codes: QuoteCodes)
    requires quote_size_in_bounds { at + quote_size ≤ length dst.old }
    ensures { dst.new ≡ written at (quote_fields codes.number codes.notation codes.currency m.now.message.now) dst.old }
{
    price_at(dst, at, m, codes.number);
    text_at(dst, at + PRICE_SIZE, MARK_SIZE, m, codes.notation);
    text_at(
        dst,
        at + PRICE_SIZE + MARK_SIZE,
        CURRENCY_SIZE,
        m,
        codes.currency,
    );
}

// Stays: a cap is a number with its bound asked for: the ledger has it as a number, and of the functions that hand it on only `mask` uses it.
// The masked notional amount.
fn mask_amount(m: &MessageFacts, cap: u64) -> Masked
    requires cap_le_largest_cap { cap ≤ largest_cap }
    ensures { (result.units ≡ shown cap (amount (kept notional_amount m.now.message.now))) × (result.plus ≡ over cap (amount (kept notional_amount m.now.message.now))) }
{
    notional::mask(m.kept(NOTIONAL_AMOUNT), cap)
}

// Asset class, notional with its plus sign, notional currency, location.
#[tactic(auto, using(octets::proofs::FieldRun::then_written, octets::proofs::FieldRun::last_written, octets::proofs::NumberLaws::length_digits, octets::proofs::FieldLaws::field_exact))]
fn write_notional(dst: &mut [u8; SIZE], m: &MessageFacts, cap: u64)
    requires { cap ≤ largest_cap }
    ensures { dst.new ≡ written class_at (notional_fields cap m.now.message.now) dst.old }
{
    let masked = mask_amount(m, cap);
    text_at(dst, CLASS_AT, CLASS_SIZE, m, ASSET_CLASS);
    octets::digits_at(dst, NOTIONAL_AT, NOTIONAL_SIZE, masked.units);
    plus_at(dst, PLUS_AT, masked.plus);
    text_at(
        dst,
        NOTIONAL_CURRENCY_AT,
        CURRENCY_SIZE,
        m,
        NOTIONAL_CURRENCY,
    );
    text_at(dst, LOCATION_AT, LOCATION_SIZE, m, SETTLEMENT_LOCATION);
}

// Writes the masked terms of a full message under the cap that applies.
#[tactic(auto, using(crate::proofs::TermLaws::terms_written, octets::proofs::FieldRun::then_group, crate::proofs::PublicLaws::terms_laws))]
pub fn write_terms(dst: &mut [u8], m: &[u8], cap: u64)
    requires { (length dst.old ≡ terms_size) × (cap ≤ largest_cap) }
    ensures dst_after { dst.new ≡ terms_of cap m.now }
    ensures terms_laws { TermsLaws }
{
    let dst: &mut [u8; SIZE] = dst.as_mut_array().unwrap();
    let m = MessageFacts::of(m);
    write_dates(dst, &m);
    write_truths(dst, &m);
    write_quote(dst, PRICE_AT, &m, QuoteCodes::PRICE);
    write_notional(dst, &m, cap);
    write_quote(dst, SPREAD_AT, &m, QuoteCodes::SPREAD);
}
