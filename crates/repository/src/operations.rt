// The operations, with the limits as parameters. Reading decides, then writing cannot fail.
ghost use Rattle.std.specs.Prelude.{ℕ, ◌≡◌};
ghost use Rattle.submission.specs.Opening.{opened};
ghost use Rattle.submission.specs.Lent.{lent_of};
ghost use Rattle.submission.specs.Submission.{submitted};
ghost use Rattle.submission.specs.Status.{asked};
ghost use Rattle.submission.specs.Totals.{asked_totals};
ghost use Rattle.repository.specs.Answers.{limits_of, submission_answer, question_answer};
ghost use Rattle.repository.specs.Refusals.{verdict_of, asked_answer, totals_of};

use crate::answer::Answer;
use crate::conclude::conclude;
use crate::decide::{decide, has_wrong_row};
use crate::verdicts::Refusal;
use elements::{UTI, has_form};
use ledger::{
    Caps, SHORTEST_LEDGER, Swap, TOTALS, are_caps, capacity_for, find_swap, read_header,
    write_header,
};

// Writes the header of a new ledger, or refuses and writes nothing.
pub fn open(l: &mut [u8], caps: Caps, largest: u32) -> Result<(), Refusal>
    ensures by_index { (longest : ℕ) → verdict_of result ≡ (opened (limits_of longest largest) caps l.old).verdict }
    ensures ledger_after { (longest : ℕ) → l.new ≡ (opened (limits_of longest largest) caps l.old).ledger }
{
    let n = l.len();
    if n < SHORTEST_LEDGER {
        return Err(Refusal::LedgerShort);
    }
    if !are_caps(caps) {
        return Err(Refusal::CapWrong);
    }
    write_header(l, caps, capacity_for(n, largest));
    Ok(())
}

// Judges a message; changes ledger and tape buffer where it is accepted.
// Stays: `let .. else` and not `?`: document 01 names this form of submit, whose answer is no Result.
// Stays: ledger, tape and message apart, here and in decide, conclude and apply: each has a lender of its own, and the clauses name each.
// Stays: both limits apart: only submit and decide take the longest message, and the clauses of open, status and totals hold for any.
pub fn submit(l: &mut [u8], tape: &mut [u8], m: &[u8], longest: usize, largest: u32) -> Answer
    ensures value { result ≡ submission_answer (submitted (limits_of longest largest) (lent_of l.old tape.old) m.now) }
    ensures tape_after { lent_of l.new tape.new ≡ (submitted (limits_of longest largest) (lent_of l.old tape.old) m.now).lent }
{
    let decision = decide(l, tape, m, longest, largest);
    let Ok(admission) = decision else {
        return Answer::from(decision);
    };
    Answer::from(conclude(l, tape, m, admission))
}

// What the ledger has of a swap: its status and last identifier.
pub fn status(l: &[u8], uti: &[u8], largest: u32) -> Result<Swap, Refusal>
    ensures { (longest : ℕ) → asked_answer result ≡ question_answer (asked (limits_of longest largest) l.now uti.now) }
{
    let header = read_header(l, largest).ok_or(Refusal::LedgerWrong)?;
    if !has_form(UTI, uti) {
        return Err(Refusal::Message(rules::Refusal::FormBroken(UTI)));
    }
    let swap = find_swap(l, header.rows as usize, uti);
    if has_wrong_row(header, swap) {
        return Err(Refusal::RowWrong);
    }
    Ok(swap)
}

// The totals by status as they are stored.
pub fn totals(l: &[u8], largest: u32) -> Result<[u32; TOTALS], Refusal>
    ensures by_index { (longest : ℕ) → verdict_of result ≡ (asked_totals (limits_of longest largest) l.now).verdict }
    ensures totals { (longest : ℕ) → totals_of result ≡ (asked_totals (limits_of longest largest) l.now).totals }
{
    let header = read_header(l, largest).ok_or(Refusal::LedgerWrong)?;
    Ok(header.totals.into())
}
