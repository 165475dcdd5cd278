// What is refused of a message alone, under its number in specs/Verdicts.antt.
ghost use Rattle.std.specs.Prelude.{◌≡◌};
ghost use Rattle.rules.specs.Rules.{numbers_of};

// A rule that a message breaks, with the code of the element at fault where the rule names one.
#[derive(Clone, Copy, Debug, PartialEq, Eq)]
pub enum Refusal {
    LayoutWrong,
    ActionWrong(u8),
    ElementMissing(u8),
    ElementNotTaken(u8),
    FormBroken(u8),
    NotAPair,
    ConditionalMissing(u8),
    PriceAndSpread,
    PriceTooLong,
    DatesDisordered,
}

impl Refusal {
    // The number of the rule.
    pub fn verdict(self) -> u8
        ensures { result ≡ (numbers_of self).0 }
    {
        match self {
            Refusal::LayoutWrong => 5,
            Refusal::ActionWrong(_) => 6,
            Refusal::ElementMissing(_) => 7,
            Refusal::ElementNotTaken(_) => 8,
            Refusal::FormBroken(_) => 9,
            Refusal::NotAPair => 10,
            Refusal::ConditionalMissing(_) => 11,
            Refusal::PriceAndSpread => 19,
            Refusal::PriceTooLong => 12,
            Refusal::DatesDisordered => 13,
        }
    }

    // The element at fault; 0 where the rule names none.
    pub fn element(self) -> u8
        ensures { result ≡ (numbers_of self).1 }
    {
        match self {
            Refusal::ActionWrong(code)
            | Refusal::ElementMissing(code)
            | Refusal::ElementNotTaken(code)
            | Refusal::FormBroken(code)
            | Refusal::ConditionalMissing(code) => code,
            _ => 0,
        }
    }
}
