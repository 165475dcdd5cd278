// What each action writes of a row and of the header.
ghost use Rattle.std.specs.Prelude.{◌≡◌, ◌+◌, ◌^◌, ◌<◌, ◌≤◌, length, IsSome};
ghost use Rattle.ledger.specs.Layout.{u32, row_start, header_size, identifier_limit};
ghost use Rattle.ledger.specs.Rows.{new_row, with_status, with_identifier, with_terms, row_after, rows_after, numbers_after, header_after};
ghost use Rattle.ledger.specs.Totals.{total_in};
ghost use Rattle.actions.specs.Actions.{number_of, step_number};

use crate::change::Change;
use crate::layout::{
    HEADER_SIZE, IDENTIFIER_AT, LENGTH_AT, NEXT_AT, ROW_SIZE, ROWS_AT, STATUS_AT, TAIL_AT,
    TAIL_SIZE, TERMS_AT, U32, U64, UTI_AT, UTI_SIZE,
};
use crate::totals::move_totals;
use actions::{Action, Status, is_full, is_new};
use octets::{copy_at, field_at, fill_at, write_at};

// Without a line only the status is written.
#[tactic(auto, using(crate::proofs::RowLaws::byte_written), unfolding(crate::specs::Rows::with_status))]
fn set_status(row: &mut [u8; ROW_SIZE], status: u8)
    ensures { row.new ≡ with_status status row.old }
{
    row[STATUS_AT] = status;
}

// NEWT writes the whole row.
fn write_row(row: &mut [u8; ROW_SIZE], change: Change)
    ensures { row.new
        ≡ new_row change.entry.status change.entry.uti.now change.entry.identifier change.entry.terms.now }
{
    set_status(row, change.status);
    row[LENGTH_AT] = change.uti.len() as u8;
    field_at(row, UTI_AT, UTI_SIZE, change.uti);
    write_at(row, IDENTIFIER_AT, U64, change.identifier);
    copy_at(row, TERMS_AT, change.terms);
    fill_at(row, TAIL_AT, TAIL_SIZE, 0);
}

// TERM and EROR write status and identifier.
#[tactic(auto, unfolding(crate::specs::Rows::with_identifier))]
fn mark_row(row: &mut [u8; ROW_SIZE], change: Change)
    ensures { row.new ≡ with_identifier change.entry.identifier (with_status change.entry.status row.old) }
{
    set_status(row, change.status);
    write_at(row, IDENTIFIER_AT, U64, change.identifier);
}

// MODI, CORR and REVI write status, identifier and terms.
#[tactic(auto, unfolding(crate::specs::Rows::with_terms))]
fn change_row(row: &mut [u8; ROW_SIZE], change: Change)
    ensures { row.new
        ≡ with_terms change.entry.terms.now (with_identifier change.entry.identifier (with_status change.entry.status row.old)) }
{
    mark_row(row, change);
    copy_at(row, TERMS_AT, change.terms);
}

// What a message writes of the swap's row, by its action and whether a line is due.
fn update_row(row: &mut [u8; ROW_SIZE], change: Change)
    ensures { row.new
        ≡ row_after change.entry.action change.entry.due change.entry.status change.entry.uti.now
        change.entry.identifier change.entry.terms.now row.old }
{
    if !change.due {
        set_status(row, change.status);
    } else if is_new(change.action) {
        write_row(row, change);
    } else if is_full(change.action) {
        change_row(row, change);
    } else {
        mark_row(row, change);
    }
}

// Updates the row at place k: its own part of the ledger is lent.
pub fn store_row(l: &mut [u8], k: usize, change: Change)
    requires { row_start (k + 1) ≤ length l.old }
    ensures { l.new
        ≡ rows_after change.entry.action change.entry.due change.entry.status change.entry.uti.now
        change.entry.identifier change.entry.terms.now k l.old }
{
    let (_, rest) = l.split_at_mut(HEADER_SIZE + k * ROW_SIZE);
    update_row(rest.first_chunk_mut().unwrap(), change);
}

// A new swap raises rows in use by one, and each line the next identifier.
// Stays: due beside next, no Option: as in Change (change.rt).
#[tactic(auto, unfolding(crate::specs::Rows::numbers_after, crate::specs::Rows::with_rows, crate::specs::Rows::with_next))]
fn raise_numbers(l: &mut [u8], a: Action, due: bool, rows: u64, next: u64)
    requires { (header_size ≤ length l.old) × (rows < 256 ^ u32) × (next ≤ identifier_limit) }
    ensures { l.new ≡ numbers_after a due rows next l.old }
{
    if is_new(a) {
        write_at(l, ROWS_AT, U32, rows + 1);
    }
    if due {
        write_at(l, NEXT_AT, U64, next + 1);
    }
}

// What a message writes of the header: these numbers, and the totals of its swap's status before and after.
// Stays: what it calls takes no `&mut [u8; HEADER_SIZE]`: `header_after` is of the whole ledger, and each write would need a law that it leaves the rest.
pub fn update_header(
    l: &mut [u8],
    a: Action,
    due: bool,
    before: Option<Status>,
    after: Status,
    rows: u64,
    next: u64,
)
    requires { (header_size ≤ length l.old) × (rows < 256 ^ u32) × (next ≤ identifier_limit)
        × (IsSome before → 0 < total_in (step_number before) l.old) }
    ensures { l.new ≡ header_after a due (step_number before) (number_of after) rows next l.old }
{
    raise_numbers(l, a, due, rows, next);
    move_totals(l, before, after);
}
