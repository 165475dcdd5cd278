// The last rule, 18, which goes by whether a line is due, and so by the terms that the line would show; then the writes.
ghost use Rattle.std.specs.Prelude.{◌+◌, ◌≤◌, ◌≡◌, length};
ghost use Rattle.octets.specs.Choice.{choose};
ghost use Rattle.actions.specs.Actions.{is_full};
ghost use Rattle.notional.specs.Masking.{largest_cap};
ghost use Rattle.terms.specs.Terms.{terms_of};
ghost use Rattle.ledger.specs.Layout.{row_start};
ghost use Rattle.ledger.specs.Rows.{row_at, stored_terms};
ghost use Rattle.submission.specs.Lent.{lent_of};
ghost use Rattle.submission.specs.Submission.{line_due, finds_spent};
ghost use Rattle.repository.specs.Answers.{submission_answer};
ghost use Rattle.repository.specs.Refusals.{concluded_answer};
ghost use Rattle.repository.specs.Decision.{finished, shown, Writable};

use crate::apply::apply;
use crate::decide::Admission;
use crate::verdicts::Refusal;
use actions::{Action, is_full, needs_change, writes_line};
use ledger::{IDENTIFIER_LIMIT, terms_at};
use terms::{SIZE, write_terms};

// The masked terms of a full message; those that the swap's row has for any other.
// Stays: a cap is a number with its bound asked for, as in the crate terms, which uses it.
fn collect_terms(dst: &mut [u8; SIZE], l: &[u8], place: usize, a: Action, cap: u64, m: &[u8])
    requires { (row_start (place + 1) ≤ length l.now) × (cap ≤ largest_cap) }
    ensures { dst.new ≡ choose (is_full a) (terms_of cap m.now) (stored_terms (row_at l.now place)) }
{
    if is_full(a) {
        write_terms(dst, m, cap);
    } else {
        dst.copy_from_slice(terms_at(l, place));
    }
}

// Whether a line is due: by the action, and for one that needs a change by the terms that it would show and those that are stored.
#[tactic(auto, using(octets::proofs::SameLaws::same_pointwise), unfolding(submission::specs::Submission::line_due))]
fn is_line_due(a: Action, terms: &[u8], stored: &[u8]) -> bool
    ensures { result ≡ line_due a terms.now stored.now }
{
    if needs_change(a) {
        terms != stored
    } else {
        writes_line(a)
    }
}

// Whether a line is due and identifiers are spent (18).
#[tactic(auto, unfolding(submission::specs::Submission::finds_spent))]
fn finds_spent(due: bool, next: u64) -> bool
    ensures { result ≡ finds_spent due next }
{
    due && next == IDENTIFIER_LIMIT
}

// 18, then what an accepted message writes: the identifier of its line, where one is written.
pub fn conclude(
    l: &mut [u8],
    tape: &mut [u8],
    m: &[u8],
    s: Admission,
) -> Result<Option<u64>, Refusal>
    requires { Writable (lent_of l.old tape.old) m.now (shown s) }
    ensures value { concluded_answer result ≡ submission_answer (finished s.action (lent_of l.old tape.old) m.now) }
    ensures tape_after { lent_of l.new tape.new ≡ (finished s.action (lent_of l.old tape.old) m.now).lent }
{
    let a = s.action;
    let mut terms = [b' '; SIZE];
    collect_terms(&mut terms, l, s.place, a, s.cap, m);
    let due = is_line_due(a, &terms, terms_at(l, s.place));
    if finds_spent(due, s.next) {
        return Err(Refusal::IdentifiersSpent);
    }
    apply(l, tape, m, s, due, &terms);
    Ok(due.then_some(s.next))
}
