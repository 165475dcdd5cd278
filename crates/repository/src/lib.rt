// The operations (specification, section 10): open a ledger, submit a message, ask the status of a swap, ask the totals. A C host reaches them through
// the crate repository_c and include/sdr.h.
#![tactic(auto)]

mod answer;
mod apply;
mod conclude;
mod decide;
mod operations;
mod verdicts;

ghost use Rattle.std.specs.Prelude.{◌≡◌};
ghost use Rattle.submission.specs.Opening.{document_limits, opened};
ghost use Rattle.submission.specs.Lent.{lent_of};
ghost use Rattle.submission.specs.Submission.{submitted};
ghost use Rattle.submission.specs.Status.{asked};
ghost use Rattle.submission.specs.Totals.{asked_totals};
ghost use Rattle.repository.specs.Answers.{caps_of, submission_answer, question_answer, answer_in};
ghost use Rattle.repository.specs.Refusals.{verdict_of};
ghost use Rattle.repository.specs.Demands.{OpeningDemands, SubmissionDemands, QuestionDemands, TotalsDemands};

use answer::pack;
pub use answer::{Answer, refusal};
use ledger::{Caps, TOTALS};
use operations::status;
pub use operations::{open, submit};
pub use verdicts::Refusal;

// The specification's limits: the longest message in bytes, and the largest capacity in rows.
pub const LONGEST_MESSAGE: usize = 2_048;

pub const LARGEST_CAPACITY: u32 = 100_000;

// The number that refuses; 0 where nothing does.
fn verdict_of<T: Copy>(answer: Result<T, Refusal>) -> u32
    ensures { result ≡ verdict_of answer }
{
    match answer {
        Ok(_) => 0,
        Err(refusal) => u32::from(refusal.verdict()),
    }
}

// Opens a ledger with the caps of the five asset classes; answers the verdict.
// Stays: five numbers and no Caps: repository_c exports them so, and its clauses are these word for word.
pub fn sdr_open(
    ledger: &mut [u8],
    cap_cr: u64,
    cap_ir: u64,
    cap_fx: u64,
    cap_eq: u64,
    cap_co: u64,
) -> u32
    ensures value { result ≡ (opened document_limits (caps_of cap_cr cap_ir cap_fx cap_eq cap_co) ledger.old).verdict }
    ensures ledger_after { ledger.new
        ≡ (opened document_limits (caps_of cap_cr cap_ir cap_fx cap_eq cap_co) ledger.old).ledger }
    ensures opening_demands { OpeningDemands }
{
    let caps = Caps {
        cr: cap_cr,
        ir: cap_ir,
        fx: cap_fx,
        eq: cap_eq,
        co: cap_co,
    };
    verdict_of(open(ledger, caps, LARGEST_CAPACITY))
}

// Submits a message; answers verdict, element and the identifier of its line in one number.
pub fn sdr_submit(ledger: &mut [u8], tape: &mut [u8], message: &[u8]) -> u64
    ensures result_value { answer_in result
        ≡ submission_answer (submitted document_limits (lent_of ledger.old tape.old) message.now) }
    ensures tape_after { lent_of ledger.new tape.new
        ≡ (submitted document_limits (lent_of ledger.old tape.old) message.now).lent }
    ensures submission_demands { SubmissionDemands }
{
    pack(submit(ledger, tape, message, LONGEST_MESSAGE, LARGEST_CAPACITY))
}

// Asks the status of a swap; answers verdict, element, status and last identifier in one number.
pub fn sdr_status(ledger: &[u8], uti: &[u8]) -> u64
    ensures result_value { answer_in result ≡ question_answer (asked document_limits ledger.now uti.now) }
    ensures question_demands { QuestionDemands }
{
    pack(Answer::from(status(ledger, uti, LARGEST_CAPACITY)))
}

// Asks how many swaps are live, closed, errored and ported; answers the verdict. Beside a refusal the totals are 0.
pub fn sdr_totals(ledger: &[u8], totals: &mut [u32; TOTALS]) -> u32
    ensures value { result ≡ (asked_totals document_limits ledger.now).verdict }
    ensures totals_after { totals.new ≡ (asked_totals document_limits ledger.now).totals }
    ensures totals_demands { TotalsDemands }
{
    let answer = operations::totals(ledger, LARGEST_CAPACITY);
    *totals = answer.unwrap_or([0; TOTALS]);
    verdict_of(answer)
}
