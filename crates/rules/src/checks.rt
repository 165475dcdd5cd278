// The rules one by one.
ghost use Rattle.std.specs.Prelude.{ℕ, ◌≡◌, Bool, not};
ghost use Rattle.message.specs.Values.{value};
ghost use Rattle.numbers.specs.Numbers.{unsigned_of};
ghost use Rattle.actions.specs.Matrix.{pair_allowed};
ghost use Rattle.elements.specs.Codes.{event_type};
ghost use Rattle.rules.specs.Findings.{lowest};
ghost use Rattle.rules.specs.Rules.{Needed, Taken, Formed, Due, answer_of, at_fault, FactsFor, TellsFaults, has_both_quotes, longer, long_quote, has_long_price, element_before, out_of_order};

use actions::{Action, is_pair};
use elements::{
    EFFECTIVE_DATE, EVENT_TYPE, EXECUTION_TIMESTAMP, EXPIRATION_DATE, Facts, LAST_CODE,
    MessageFacts, QuoteCodes, REPORTING_TIMESTAMP, SETTLEMENT_DATE, has_form, is_due, is_needed,
    is_taken, taken_up_to,
};
use message::{LaidMessage, element};

// The most digits under notations 3 and 4, in all and after the point.
const NOTATION_THREE_DIGITS: usize = 11;

const NOTATION_THREE_DECIMALS: usize = 10;

const NOTATION_FOUR_DIGITS: usize = 5;

const NOTATION_FOUR_DECIMALS: usize = 0;

// The lowest element code at fault, or the action. The test is asked of each code in turn, with the value of its element where that is there.
fn lowest_fault<F: Fn(u8, Option<&[u8]>) -> bool>(
    message: LaidMessage,
    action: Action,
    is_at_fault: F,
) -> Result<Action, u8>
    requires { F.IsAlwaysCallable is_at_fault }
    ensures { (at_fault : ℕ → Bool) → TellsFaults (F.post is_at_fault) at_fault message.entry.src.now → result ≡ answer_of action (lowest at_fault) }
{
    let mut cursor = message.cursor();
    for code in 1..=LAST_CODE {
        if is_at_fault(code, cursor.value_of(code)) {
            return Err(code);
        }
    }
    Ok(action)
}

// 7. The lowest code of an element that is needed and missing, or the action.
pub fn lowest_missing(message: LaidMessage, action: Action) -> Result<Action, u8>
    ensures { result ≡ answer_of action (lowest (at_fault Needed action message.entry.src.now)) }
{
    lowest_fault(message, action, |code, value| {
        value.is_none() && is_needed(action, code)
    })
}

// 8. The lowest code of an element that the action does not take, or the action. Where the last code is one up to which the action takes
// each, nothing else is looked at.
pub fn lowest_not_taken(message: LaidMessage, action: Action) -> Result<Action, u8>
    ensures { result ≡ answer_of action (lowest (at_fault Taken action message.entry.src.now)) }
{
    if message.last_code() <= taken_up_to(action) as usize {
        return Ok(action);
    }
    lowest_fault(message, action, |code, value| {
        value.is_some() && !is_taken(action, code)
    })
}

// 9. The lowest code of an element whose value breaks its form, or the action.
pub fn lowest_broken(message: LaidMessage, action: Action) -> Result<Action, u8>
    ensures { result ≡ answer_of action (lowest (at_fault Formed action message.entry.src.now)) }
{
    lowest_fault(message, action, |code, value| {
        value.is_some_and(|v| !has_form(code, v))
    })
}

// 10. Whether the action and the event are no pair of the matrix.
pub fn is_not_a_pair(m: &[u8], action: Action) -> bool
    ensures { result ≡ not (pair_allowed action (value event_type m.now)) }
{
    !is_pair(action, element(m, EVENT_TYPE))
}

// 11. The lowest code of an element that is due under its condition and missing, or the action.
#[tactic(auto, unfolding(elements::specs::Conditions::is_due))]
pub fn lowest_due(message: LaidMessage, facts: Facts, action: Action) -> Result<Action, u8>
    requires { FactsFor Due facts message.src.now }
    ensures { result ≡ answer_of action (lowest (at_fault Due action message.entry.src.now)) }
{
    lowest_fault(message, action, |code, value| {
        value.is_none() && is_due(facts, code)
    })
}

// Whether a package has both price and spread.
#[tactic(auto, unfolding(crate::specs::Rules::has_both_quotes, elements::specs::Conditions::facts_of, elements::specs::Conditions::quote_of))]
pub fn has_both_quotes(asked: MessageFacts) -> bool
    ensures { result ≡ has_both_quotes asked.entry.message.now }
{
    asked.facts.price.is_there() && asked.facts.spread.is_there()
}

// Whether a number has more digits than these, in all or after the point.
#[tactic(auto, unfolding(crate::specs::Rules::longer))]
fn is_longer(m: &[u8], code: u8, most_digits: usize, most_decimals: usize) -> bool
    ensures { result ≡ longer most_digits most_decimals (unsigned_of (value code m.now)) }
{
    let v = numbers::unsigned_of(element(m, code));
    let decimals = numbers::decimals_of(v).len();
    most_digits < numbers::whole_of(v).len() + decimals || most_decimals < decimals
}

// Whether a price or a spread has more digits than its notation allows.
#[tactic(auto, unfolding(crate::specs::Rules::long_quote, elements::specs::Conditions::value_is, octets::specs::Same::same_bytes, octets::specs::Text::text))]
fn is_long_quote(m: &[u8], codes: QuoteCodes) -> bool
    ensures { result ≡ long_quote codes.number codes.notation m.now }
{
    match element(m, codes.notation) {
        b"3" => is_longer(
            m,
            codes.number,
            NOTATION_THREE_DIGITS,
            NOTATION_THREE_DECIMALS,
        ),
        b"4" => is_longer(
            m,
            codes.number,
            NOTATION_FOUR_DIGITS,
            NOTATION_FOUR_DECIMALS,
        ),
        _ => false,
    }
}

// Whether the price or the spread of a package is too long.
#[tactic(auto, unfolding(crate::specs::Rules::has_long_price, elements::specs::Conditions::facts_of))]
pub fn has_long_price(asked: MessageFacts) -> bool
    ensures { result ≡ has_long_price asked.entry.message.now }
{
    let m = asked.message;
    asked.facts.packaged
        && (is_long_quote(m, QuoteCodes::PRICE) || is_long_quote(m, QuoteCodes::SPREAD))
}

// Whether the value of one element is before that of another.
fn is_element_before(m: &[u8], a: u8, b: u8) -> bool
    ensures { result ≡ element_before m.now a b }
{
    dates::is_before(element(m, a), element(m, b))
}

// Whether dates or times of a full message are out of order.
#[tactic(auto, unfolding(crate::specs::Rules::out_of_order))]
pub fn is_out_of_order(m: &[u8], action: Action) -> bool
    ensures { result ≡ out_of_order action m.now }
{
    actions::is_full(action)
        && (is_element_before(m, EXPIRATION_DATE, EFFECTIVE_DATE)
            || is_element_before(m, SETTLEMENT_DATE, EXPIRATION_DATE)
            || is_element_before(m, REPORTING_TIMESTAMP, EXECUTION_TIMESTAMP))
}
