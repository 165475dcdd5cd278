// The decision on a message: the rules of a submission in checking order, up to 17. Reads only.
ghost use Rattle.std.specs.Prelude.{◌≡◌, length, ltb};
ghost use Rattle.octets.specs.Choice.{choose};
ghost use Rattle.actions.specs.Actions.{is_full};
ghost use Rattle.ledger.specs.Layout.{line_size};
ghost use Rattle.submission.specs.Lent.{lent_of};
ghost use Rattle.submission.specs.Submission.{cap_on, row_right, has_wrong_row, has_other_time, finds_full};
ghost use Rattle.repository.specs.Answers.{limits_of};
ghost use Rattle.repository.specs.Decision.{numbered, decision, decision_in, HeaderRead};

use crate::verdicts::Refusal;
use actions::{Action, Status, is_full, is_new, repeats_time, status_after};
use elements::{ASSET_CLASS, EXECUTION_TIMESTAMP, UTI};
use ledger::{Caps, Header, LINE_SIZE, Swap, cap_for, find_swap, read_header, time_of, total_of};
use message::element;
use rules::judge;

// What 18 and the writes use of a message that every other rule admits: its action, the place of the swap's row, the swap's status before and after
// it, its last identifier, the header's numbers, and the cap that applies.
#[derive(Clone, Copy)]
pub struct Admission {
    pub action: Action,
    pub place: usize,
    pub before: Option<Status>,
    pub status: Status,
    pub previous: u64,
    pub rows: u64,
    pub next: u64,
    pub cap: u64,
}

// The cap that applies to a full message; other messages have none.
// Stays: 0 and no Option where there is no cap: the definition `admission_for` takes a number, and only that of a full message is used.
#[tactic(auto, unfolding(submission::specs::Submission::cap_on))]
fn cap_of(caps: Caps, a: Action, m: &[u8]) -> u64
    ensures { result ≡ choose (is_full a) (cap_on caps m.now) 0 }
{
    if is_full(a) {
        cap_for(caps, element(m, ASSET_CLASS))
    } else {
        0
    }
}

// Whether the row of a swap has a status, an identifier below the next one, and a total that counts it.
#[tactic(auto, unfolding(submission::specs::Submission::row_right))]
fn is_row_right(header: Header, swap: Swap) -> bool
    ensures { result ≡ row_right header swap }
{
    let Ok(_) = Status::try_from(swap.status) else {
        return false;
    };
    1 <= swap.identifier
        && swap.identifier < header.next
        && 1 <= total_of(header.totals, swap.status)
}

// Whether the swap has a row, and that row is wrong (14).
#[tactic(auto, unfolding(submission::specs::Submission::has_wrong_row))]
pub fn has_wrong_row(header: Header, swap: Swap) -> bool
    ensures { result ≡ has_wrong_row header swap }
{
    swap.known && !is_row_right(header, swap)
}

// Whether the tape buffer is shorter than a line (4).
fn is_tape_short(tape: &[u8]) -> bool
    ensures { result ≡ ltb (length tape.now) line_size }
{
    tape.len() < LINE_SIZE
}

// Whether a message has to repeat the stored execution time and has another one (16).
#[tactic(auto, using(octets::proofs::SameLaws::same_pointwise), unfolding(submission::specs::Submission::has_other_time))]
fn has_other_time(a: Action, time: &[u8], m: &[u8]) -> bool
    ensures { result ≡ has_other_time a time.now m.now }
{
    repeats_time(a) && element(m, EXECUTION_TIMESTAMP) != time
}

// Whether a new swap finds no room (17).
#[tactic(auto, unfolding(submission::specs::Submission::finds_full))]
fn finds_full(a: Action, header: Header) -> bool
    ensures { result ≡ finds_full a header }
{
    is_new(a) && header.rows == header.capacity
}

// 3, 4, then the rules of the message alone, then those by what the ledger has of the swap: the first one that is broken refuses.
pub fn decide(
    l: &[u8],
    tape: &[u8],
    m: &[u8],
    longest: usize,
    largest: u32,
) -> Result<Admission, Refusal>
    ensures { numbered result ≡ decision (limits_of longest largest) (lent_of l.now tape.now) m.now }
{
    let header = read_header(l, largest).ok_or(Refusal::LedgerWrong)?;
    if is_tape_short(tape) {
        return Err(Refusal::TapeShort);
    }
    let action = judge(m, longest)?;
    admit(l, m, header, action)
}

// 14 to 17, with what the ledger has of the swap.
fn admit(l: &[u8], m: &[u8], header: Header, action: Action) -> Result<Admission, Refusal>
    requires { HeaderRead header l.now }
    ensures { numbered result ≡ decision_in action l.now m.now }
{
    let swap = find_swap(l, header.rows as usize, element(m, UTI));
    if has_wrong_row(header, swap) {
        return Err(Refusal::RowWrong);
    }
    let status = status_after(action, swap.status).ok_or(Refusal::NotAdmitted)?;
    if has_other_time(action, time_of(l, swap), m) {
        return Err(Refusal::OtherTime);
    }
    if finds_full(action, header) {
        return Err(Refusal::LedgerFull);
    }
    Ok(Admission {
        action,
        place: swap.place,
        before: Status::try_from(swap.status).ok(),
        status,
        previous: swap.identifier,
        rows: header.rows,
        next: header.next,
        cap: cap_of(header.caps, action, m),
    })
}
