// What a C host calls, declared in include/sdr.h: each export calls the operation of repository that has its name, and states its clauses again.
#![tactic(auto)]

ghost use Rattle.std.specs.Prelude.{◌≡◌};
ghost use Rattle.submission.specs.Opening.{document_limits, opened};
ghost use Rattle.submission.specs.Lent.{lent_of};
ghost use Rattle.submission.specs.Submission.{submitted};
ghost use Rattle.submission.specs.Status.{asked};
ghost use Rattle.submission.specs.Totals.{asked_totals};
ghost use Rattle.repository.specs.Answers.{caps_of, submission_answer, question_answer, answer_in};
ghost use Rattle.repository.specs.Demands.{OpeningDemands, SubmissionDemands, QuestionDemands, TotalsDemands};

use ledger::TOTALS;

// Opens a ledger with the caps of the five asset classes; answers the verdict.
#[unsafe(no_mangle)]
pub extern "C" fn sdr_open(
    ledger: &mut [u8],
    cap_cr: u64,
    cap_ir: u64,
    cap_fx: u64,
    cap_eq: u64,
    cap_co: u64,
) -> u32
    ensures value { result ≡ (opened document_limits (caps_of cap_cr cap_ir cap_fx cap_eq cap_co) ledger.old).verdict }
    ensures ledger_after { ledger.new
        ≡ (opened document_limits (caps_of cap_cr cap_ir cap_fx cap_eq cap_co) ledger.old).ledger }
    ensures opening_demands { OpeningDemands }
{
    repository::sdr_open(ledger, cap_cr, cap_ir, cap_fx, cap_eq, cap_co)
}

// Submits a message; answers verdict, element and the identifier of its line in one number.
#[unsafe(no_mangle)]
pub extern "C" fn sdr_submit(ledger: &mut [u8], tape: &mut [u8], message: &[u8]) -> u64
    ensures result_value { answer_in result
        ≡ submission_answer (submitted document_limits (lent_of ledger.old tape.old) message.now) }
    ensures tape_after { lent_of ledger.new tape.new
        ≡ (submitted document_limits (lent_of ledger.old tape.old) message.now).lent }
    ensures submission_demands { SubmissionDemands }
{
    repository::sdr_submit(ledger, tape, message)
}

// Asks the status of a swap; answers verdict, element, status and last identifier in one number.
#[unsafe(no_mangle)]
pub extern "C" fn sdr_status(ledger: &[u8], uti: &[u8]) -> u64
    ensures result_value { answer_in result ≡ question_answer (asked document_limits ledger.now uti.now) }
    ensures question_demands { QuestionDemands }
{
    repository::sdr_status(ledger, uti)
}

// Asks how many swaps are live, closed, errored and ported; answers the verdict. Beside a refusal the totals are 0.
#[unsafe(no_mangle)]
pub extern "C" fn sdr_totals(ledger: &[u8], totals: &mut [u32; TOTALS]) -> u32
    ensures value { result ≡ (asked_totals document_limits ledger.now).verdict }
    ensures totals_after { totals.new ≡ (asked_totals document_limits ledger.now).totals }
    ensures totals_demands { TotalsDemands }
{
    repository::sdr_totals(ledger, totals)
}
