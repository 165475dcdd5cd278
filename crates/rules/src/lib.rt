// Verdicts 5 to 13 and 19 (specification, section 9): what is judged of a message alone.
#![tactic(auto)]

mod checks;
mod verdicts;

ghost use Rattle.std.specs.Prelude.{◌≡◌};
ghost use Rattle.rules.specs.Verdicts.{action_wrong};
ghost use Rattle.rules.specs.Rules.{action_in, verdict, judged, judged_from, verdict_of, numbered};

use actions::{ACTION_TYPE, Action, read_action};
use checks::{
    has_both_quotes, has_long_price, is_not_a_pair, is_out_of_order, lowest_broken, lowest_due,
    lowest_missing, lowest_not_taken,
};
use elements::{MessageFacts, has_layout};
use message::{LaidMessage, element};
pub use verdicts::Refusal;

// The action of a message of at most `longest` bytes, or the first rule that the message breaks. Rules stand in checking order.
#[tactic(auto, unfolding(crate::specs::Rules::judged, crate::specs::Rules::verdict, crate::specs::Rules::rules_for, crate::specs::Findings::first_broken))]
pub fn judge(m: &[u8], longest: usize) -> Result<Action, Refusal>
    ensures result_value { verdict_of (numbered result) ≡ verdict longest m.now }
    ensures value { numbered result ≡ judged longest m.now }
{
    if !has_layout(m, longest) {
        return Err(Refusal::LayoutWrong);
    }
    judge_laid(LaidMessage::new(m))
}

// The same of a message that is laid out right.
fn judge_laid(message: LaidMessage) -> Result<Action, Refusal>
    ensures { numbered result ≡ judged_from action_wrong (action_in message.entry.src.now) message.entry.src.now }
{
    let m = message.src;
    let action = read_action(element(m, ACTION_TYPE)).map_err(Refusal::ActionWrong)?;
    let action = lowest_missing(message, action).map_err(Refusal::ElementMissing)?;
    let action = lowest_not_taken(message, action).map_err(Refusal::ElementNotTaken)?;
    let action = lowest_broken(message, action).map_err(Refusal::FormBroken)?;
    if is_not_a_pair(m, action) {
        return Err(Refusal::NotAPair);
    }
    let asked = MessageFacts::of(m);
    let action = lowest_due(message, asked.facts, action).map_err(Refusal::ConditionalMissing)?;
    if has_both_quotes(asked) {
        return Err(Refusal::PriceAndSpread);
    }
    if has_long_price(asked) {
        return Err(Refusal::PriceTooLong);
    }
    if is_out_of_order(m, action) {
        return Err(Refusal::DatesDisordered);
    }
    Ok(action)
}
