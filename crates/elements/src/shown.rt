// A message beside what the conditions ask of it, and what it shows.
ghost use Rattle.std.specs.Prelude.{◌≡◌};
ghost use Rattle.octets.specs.Part.{PartOf};
ghost use Rattle.message.specs.Values.{offset_of};
ghost use Rattle.elements.specs.Conditions.{facts_of, kept};

use crate::conditions::{Facts, facts_of, is_met};
use crate::table::element_of;
use message::element;

// A message whose facts are known.
#[derive(Clone, Copy)]
pub struct MessageFacts<'a> {
    pub message: &'a [u8],
    pub facts: Facts,
    pub ghost of_message: { facts ≡ facts_of message.now },
}

impl<'a> MessageFacts<'a> {
    pub fn of(message: &'a [u8]) -> Self
        ensures { result.message ≡ message.entry }
    {
        MessageFacts {
            message,
            facts: facts_of(message),
        }
    }

    // The value of an element; nothing where its condition is not met.
    #[tactic(auto, unfolding(crate::specs::Conditions::kept))]
    pub fn kept(&self, code: u8) -> &'a [u8]
        ensures { (result.now ≡ kept code self.now.message.now) × PartOf self.now.message (offset_of code self.now.message.now) result }
    {
        if is_met(element_of(code).shown, self.facts) {
            return element(self.message, code);
        }
        &self.message[..0]
    }
}
