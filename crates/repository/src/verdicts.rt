// What refuses an operation, under its number in specs/Refusals.antt.
ghost use Rattle.std.specs.Prelude.{◌≡◌};
ghost use Rattle.repository.specs.Refusals.{numbers_of};
ghost use Rattle.repository.specs.declared.verdicts.Refusal.TheVariants.{Message};

// A rule that is broken: one of a message alone (crate rules), or one of the others in checking order.
#[derive(Clone, Copy, Debug, PartialEq, Eq)]
pub enum Refusal {
    LedgerShort,
    CapWrong,
    LedgerWrong,
    TapeShort,
    Message(rules::Refusal),
    RowWrong,
    NotAdmitted,
    OtherTime,
    LedgerFull,
    IdentifiersSpent,
}

impl Refusal {
    // The specification's number.
    pub fn verdict(self) -> u8
        ensures { result ≡ (numbers_of self).0 }
    {
        match self {
            Refusal::LedgerShort => 1,
            Refusal::CapWrong => 2,
            Refusal::LedgerWrong => 3,
            Refusal::TapeShort => 4,
            Refusal::Message(refusal) => refusal.verdict(),
            Refusal::RowWrong => 14,
            Refusal::NotAdmitted => 15,
            Refusal::OtherTime => 16,
            Refusal::LedgerFull => 17,
            Refusal::IdentifiersSpent => 18,
        }
    }

    // The element that it names; 0 where it names none.
    pub fn element(self) -> u8
        ensures { result ≡ (numbers_of self).1 }
    {
        match self {
            Refusal::Message(refusal) => refusal.element(),
            _ => 0,
        }
    }
}

impl From<rules::Refusal> for Refusal {
    ghost from_gives = { λ r e. e ≡ Message r };

    fn from(refusal: rules::Refusal) -> Refusal {
        Refusal::Message(refusal)
    }
}
