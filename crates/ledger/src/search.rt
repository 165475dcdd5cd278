// The search for a swap's row.
ghost use Rattle.std.specs.Prelude.{◌≡◌, ◌+◌, ◌<◌, ◌≤◌, length, true, [], MatchOption};
ghost use Rattle.ledger.specs.Layout.{row_start};
ghost use Rattle.ledger.specs.Rows.{row_at, stored_terms, stored_time, place_in, swap_in};
ghost use Rattle.ledger.specs.Header.{rows_in_use};
ghost use Rattle.octets.specs.Choice.{choose};

use crate::row::row_at;
use actions::UNKNOWN;

// What a ledger has of a swap: whether it has a row, where the row stands, its status and its last identifier. An unknown swap has the
// place behind the rows in use, and no status or identifier.
// Stays: no Option of a row: the definition `swap_in` (specs/Rows.antt) has these four, and rule 15 goes by the status of a swap without a row.
#[derive(Clone, Copy, Debug, PartialEq, Eq)]
pub struct Swap {
    pub known: bool,
    pub place: usize,
    pub status: u8,
    pub identifier: u64,
}

// The place of the first of so many rows that is the swap's.
fn find_row(l: &[u8], rows: usize, uti: &[u8]) -> Option<usize>
    requires { row_start rows ≤ length l.now }
    ensures { MatchOption result (place_in l.now rows uti.now ≡ rows)
        (λ k. (k < rows) × (k ≡ place_in l.now rows uti.now)) }
{
    for k in 0..rows {
        if row_at(l, k).has_uti(uti) {
            return Some(k);
        }
    }
    None
}

// Looks up the swap among the rows in use.
pub fn find_swap(l: &[u8], rows: usize, uti: &[u8]) -> Swap
    requires { (rows ≡ rows_in_use l.now) × (row_start rows ≤ length l.now) }
    ensures { result ≡ swap_in l.now uti.now }
{
    let Some(place) = find_row(l, rows, uti) else {
        return Swap {
            known: false,
            place: rows,
            status: UNKNOWN,
            identifier: 0,
        };
    };
    let row = row_at(l, place);
    Swap {
        known: true,
        place,
        status: row.status(),
        identifier: row.identifier(),
    }
}

// The masked terms of the row at a place.
pub fn terms_at<'a>(l: &'a [u8], k: usize) -> &'a [u8]
    requires { row_start (k + 1) ≤ length l.now }
    ensures { result.now ≡ stored_terms (row_at l.now k) }
{
    row_at(l, k).terms()
}

// The execution time of a known swap's row; nothing for an unknown swap.
pub fn time_of<'a>(l: &'a [u8], swap: Swap) -> &'a [u8]
    requires { swap.known ≡ true → row_start (swap.place + 1) ≤ length l.now }
    ensures { result.now ≡ choose swap.known (stored_time (row_at l.now swap.place)) [] }
{
    if swap.known {
        return row_at(l, swap.place).time();
    }
    &[]
}
