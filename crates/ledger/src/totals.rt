// How many swaps have each status: what a header says of it, and what a message writes of it.
ghost use Rattle.std.specs.Prelude.{◌≡◌, ◌<◌, ◌≤◌, length, IsSome};
ghost use Rattle.actions.specs.Actions.{number_of, step_number};
ghost use Rattle.ledger.specs.Layout.{total_at, header_size};
ghost use Rattle.ledger.specs.Totals.{total_in, totals_in, in_order, total_of, sum_of, lowered, totals_after};

use crate::layout::{TOTALS, TOTALS_AT, U32};
use actions::Status;
use octets::{read_at, write_at};

// How many swaps are live, closed, errored and ported.
#[derive(Clone, Copy, Debug, PartialEq, Eq)]
pub struct Totals {
    pub live: u32,
    pub closed: u32,
    pub errored: u32,
    pub ported: u32,
}

// Where the total of a status stands in the header.
fn total_at(status: Status) -> usize
    ensures { result ≡ total_at (number_of status) }
{
    TOTALS_AT + (status as usize - Status::Live as usize) * U32
}

// The total of a status in the header.
#[tactic(auto, unfolding(crate::specs::Totals::total_in))]
fn read_total(l: &[u8], status: Status) -> u32
    ensures { result ≡ total_in (number_of status) l.now }
{
    read_at(l, total_at(status), U32) as u32
}

// The totals in a header.
#[tactic(auto, unfolding(crate::specs::Totals::totals_in))]
pub fn read_totals(l: &[u8]) -> Totals
    ensures { result ≡ totals_in l.now }
{
    Totals {
        live: read_total(l, Status::Live),
        closed: read_total(l, Status::Closed),
        errored: read_total(l, Status::Errored),
        ported: read_total(l, Status::Ported),
    }
}

// The totals by status from live to ported.
pub fn in_order(totals: Totals) -> [u32; TOTALS]
    ensures { result ≡ in_order totals }
{
    [totals.live, totals.closed, totals.errored, totals.ported]
}

impl From<Totals> for [u32; TOTALS] {
    ghost from_gives = { λ totals numbers. numbers ≡ in_order totals };

    fn from(totals: Totals) -> [u32; TOTALS] {
        in_order(totals)
    }
}

// The exact sum of the totals.
#[tactic(auto, unfolding(crate::specs::Totals::sum_of))]
pub fn sum_of(totals: Totals) -> u64
    ensures { result ≡ sum_of totals }
{
    u64::from(totals.live)
        + u64::from(totals.closed)
        + u64::from(totals.errored)
        + u64::from(totals.ported)
}

// The total of a status; no other number has one.
// Stays: a number, since it is asked of a row's byte, which may be any.
#[tactic(auto, unfolding(crate::specs::Totals::total_of))]
pub fn total_of(totals: Totals, status: u8) -> u32
    ensures { result ≡ total_of totals status }
{
    match Status::try_from(status) {
        Ok(Status::Live) => totals.live,
        Ok(Status::Closed) => totals.closed,
        Ok(Status::Errored) => totals.errored,
        Ok(Status::Ported) => totals.ported,
        Err(_) => 0,
    }
}

// A swap leaves the total of its old status; an unknown one is in none.
// Stays: that its total is above 0 is asked for, here and up to update_header: it is a fact of bytes that are lent and written, no value has it.
#[tactic(auto, unfolding(crate::specs::Totals::lowered, crate::specs::Totals::with_total))]
fn lower_total(l: &mut [u8], before: Option<Status>)
    requires { (header_size ≤ length l.old) × (IsSome before → 0 < total_in (step_number before) l.old) }
    ensures { l.new ≡ lowered (step_number before) l.old }
{
    if let Some(status) = before {
        let less = read_total(l, status) - 1;
        write_at(l, total_at(status), U32, u64::from(less));
    }
}

// A change of status lowers the total of the old status and raises that of the new one; where the status stays, no total moves.
#[tactic(auto, unfolding(crate::specs::Totals::totals_after, crate::specs::Totals::with_total))]
pub fn move_totals(l: &mut [u8], before: Option<Status>, after: Status)
    requires { (header_size ≤ length l.old) × (IsSome before → 0 < total_in (step_number before) l.old) }
    ensures { l.new ≡ totals_after (step_number before) (number_of after) l.old }
{
    if before == Some(after) {
        return;
    }
    let more = u64::from(read_total(l, after)) + 1;
    lower_total(l, before);
    write_at(l, total_at(after), U32, more);
}
