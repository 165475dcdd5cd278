// Elements that are needed under a condition, and what is left out where it is not met.
ghost use Rattle.std.specs.Prelude.{◌≡◌};
ghost use Rattle.elements.specs.Conditions.{is_package, value_is, is_quote, quote_of, facts_of, met};
ghost use Rattle.elements.specs.Table.{element_of};

use crate::table::{Condition, element_of};
use crate::{
    CLEARED, PACKAGE_INDICATOR, PACKAGE_PRICE, PACKAGE_SPREAD, PRICE_CURRENCY, PRICE_NOTATION,
    SPREAD_CURRENCY, SPREAD_NOTATION,
};
use message::element;
use octets::same;

// The codes of a price or a spread: its number, its notation, its currency.
#[derive(Clone, Copy, Debug, PartialEq, Eq)]
pub struct QuoteCodes {
    pub number: u8,
    pub notation: u8,
    pub currency: u8,
}

impl QuoteCodes {
    pub const PRICE: QuoteCodes = QuoteCodes {
        number: PACKAGE_PRICE,
        notation: PRICE_NOTATION,
        currency: PRICE_CURRENCY,
    };

    pub const SPREAD: QuoteCodes = QuoteCodes {
        number: PACKAGE_SPREAD,
        notation: SPREAD_NOTATION,
        currency: SPREAD_CURRENCY,
    };
}

// What the conditions ask of a price or a spread: whether a package has it, and then whether its notation is 1, monetary.
#[derive(Clone, Copy, Debug, PartialEq, Eq)]
pub enum Quote {
    Missing,
    Other,
    Monetary,
}

impl Quote {
    pub fn is_there(self) -> bool
        ensures { result ≡ is_quote self }
    {
        self != Quote::Missing
    }
}

// What the conditions ask: Cleared is N; 15 is true; price and spread.
#[derive(Clone, Copy, Debug, PartialEq, Eq)]
pub struct Facts {
    pub uncleared: bool,
    pub packaged: bool,
    pub price: Quote,
    pub spread: Quote,
}

// Whether the package indicator is true.
#[tactic(auto, unfolding(crate::specs::Conditions::is_package))]
fn is_package(m: &[u8]) -> bool
    ensures { result ≡ is_package m.now }
{
    values::is_true(element(m, PACKAGE_INDICATOR))
}

// Whether the value of an element is this one.
#[tactic(auto, unfolding(crate::specs::Conditions::value_is))]
pub fn value_is(m: &[u8], code: u8, v: &[u8]) -> bool
    ensures { result ≡ value_is code v.now m.now }
{
    same(element(m, code), v)
}

// What the conditions ask of a price or a spread.
#[tactic(auto, unfolding(crate::specs::Conditions::quote_of, crate::specs::Conditions::is_quoted, message::specs::Values::is_there, octets::specs::Text::text))]
fn quote_of(m: &[u8], packaged: bool, codes: QuoteCodes) -> Quote
    requires { packaged ≡ is_package m.now }
    ensures { result ≡ quote_of codes.number codes.notation m.now }
{
    if !packaged || element(m, codes.number).is_empty() {
        return Quote::Missing;
    }
    if value_is(m, codes.notation, b"1") {
        return Quote::Monetary;
    }
    Quote::Other
}

// What the conditions ask of a message.
#[tactic(auto, unfolding(crate::specs::Conditions::facts_of, octets::specs::Text::text))]
pub fn facts_of(m: &[u8]) -> Facts
    ensures { result ≡ facts_of m.now }
{
    let uncleared = value_is(m, CLEARED, b"N");
    let packaged = is_package(m);
    let price = quote_of(m, packaged, QuoteCodes::PRICE);
    let spread = quote_of(m, packaged, QuoteCodes::SPREAD);
    Facts {
        uncleared,
        packaged,
        price,
        spread,
    }
}

// Whether a condition is met.
pub fn is_met(condition: Condition, facts: Facts) -> bool
    ensures { result ≡ met condition facts }
{
    match condition {
        Condition::Never => false,
        Condition::Always => true,
        Condition::ClearedIsN => facts.uncleared,
        Condition::Package => facts.packaged,
        Condition::NoSpread => facts.packaged && !facts.spread.is_there(),
        Condition::HasPrice => facts.price.is_there(),
        Condition::MonetaryPrice => facts.price == Quote::Monetary,
        Condition::HasSpread => facts.spread.is_there(),
        Condition::MonetarySpread => facts.spread == Quote::Monetary,
    }
}

// Whether the element is due under its condition, in a message with these facts.
pub fn is_due(facts: Facts, code: u8) -> bool
    ensures { result ≡ met (element_of code).due facts }
{
    is_met(element_of(code).due, facts)
}
