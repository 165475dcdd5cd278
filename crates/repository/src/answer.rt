// The answer of an operation, and the one number that carries it to a C host.
ghost use Rattle.std.specs.Prelude.{◌<◌, ◌≡◌};
ghost use Rattle.repository.specs.Answers.{carried_limit, refusal_answer, packed, answer_in};
ghost use Rattle.repository.specs.Refusals.{refused_answer, concluded_answer, asked_answer};
ghost use Rattle.repository.specs.Decision.{numbered, decision_answer};

use crate::decide::Admission;
use crate::verdicts::Refusal;
use ledger::Swap;

// Where element, status and identifier start in the number, as the factor of each.
const ELEMENT: u64 = 256;

const STATUS: u64 = 65_536;

const IDENTIFIER: u64 = 16_777_216;

// Verdict, element, status and identifier: what the number carries, and a report shows.
// Stays: four numbers, 0 for what is not told: the C interface has them so, and the number is made of them.
// Stays: the element not beside the verdict: `pack` would read the two as one, and that read waits until each is written.
#[derive(Clone, Copy, Debug, PartialEq, Eq)]
pub struct Answer {
    pub verdict: u8,
    pub status: u8,
    pub element: u8,
    pub identifier: u64,
}

// Nothing is refused, and nothing else is told.
const ACCEPTED: Answer = Answer {
    verdict: 0,
    element: 0,
    status: 0,
    identifier: 0,
};

// A refusal: beside it, status and identifier are 0.
pub fn refusal(verdict: u8, element: u8) -> Answer
    ensures { result ≡ refusal_answer verdict element }
{
    Answer {
        verdict,
        element,
        ..ACCEPTED
    }
}

// A refusal has its own number and element.
impl From<Refusal> for Answer {
    ghost from_gives = { λ r a. a ≡ refused_answer r };

    fn from(r: Refusal) -> Answer {
        refusal(r.verdict(), r.element())
    }
}

// What a decision answers by itself: a refusal its verdict and element. For an admission the rest is left to do.
impl From<Result<Admission, Refusal>> for Answer {
    ghost from_gives = { λ d a. a ≡ decision_answer (numbered d) };

    fn from(d: Result<Admission, Refusal>) -> Answer {
        match d {
            Ok(_) => ACCEPTED,
            Err(refusal) => Answer::from(refusal),
        }
    }
}

// A submission: the identifier that its line takes, 0 where no line is written.
impl From<Result<Option<u64>, Refusal>> for Answer {
    ghost from_gives = { λ r a. a ≡ concluded_answer r };

    fn from(r: Result<Option<u64>, Refusal>) -> Answer {
        match r {
            Ok(identifier) => Answer {
                identifier: identifier.unwrap_or(0),
                ..ACCEPTED
            },
            Err(refusal) => Answer::from(refusal),
        }
    }
}

// The status question: the swap's status and last identifier.
impl From<Result<Swap, Refusal>> for Answer {
    ghost from_gives = { λ r a. a ≡ asked_answer r };

    fn from(r: Result<Swap, Refusal>) -> Answer {
        match r {
            Ok(swap) => Answer {
                status: swap.status,
                identifier: swap.identifier,
                ..ACCEPTED
            },
            Err(refusal) => Answer::from(refusal),
        }
    }
}

// The number that carries an answer.
pub fn pack(a: Answer) -> u64
    requires { a.identifier < carried_limit }
    ensures { (result ≡ packed a) × (answer_in result ≡ a) }
{
    u64::from(a.verdict)
        + u64::from(a.element) * ELEMENT
        + u64::from(a.status) * STATUS
        + a.identifier * IDENTIFIER
}
