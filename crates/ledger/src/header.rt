// The ledger's header.
ghost use Rattle.std.specs.Prelude.{◌≡◌};
ghost use Rattle.ledger.specs.Header.{caps_in, cap_for, are_caps, capacity_for, header_of, header_right, checked_header};

use crate::layout::{
    CAPACITY_AT, CO_AT, CR_AT, EQ_AT, FIRST_ROW_AT, FX_AT, HEADER_SIZE, IDENTIFIER_LIMIT, IR_AT,
    NEXT_AT, ROW_SIZE, ROW_SIZE_AT, ROWS_AT, SHORTEST_LEDGER, U32, U64,
};
use crate::totals::{Totals, read_totals, sum_of};
use notional::is_cap;
use octets::read_at;

// The caps of the asset classes.
#[derive(Clone, Copy, Debug, PartialEq, Eq)]
pub struct Caps {
    pub cr: u64,
    pub ir: u64,
    pub fx: u64,
    pub eq: u64,
    pub co: u64,
}

// The numbers of a right header.
#[derive(Clone, Copy, Debug, PartialEq, Eq)]
pub struct Header {
    pub rows: u64,
    pub next: u64,
    pub capacity: u64,
    pub caps: Caps,
    pub totals: Totals,
}

// Whether each cap is one.
#[tactic(auto, unfolding(crate::specs::Header::are_caps))]
pub fn are_caps(caps: Caps) -> bool
    ensures { result ≡ are_caps caps }
{
    is_cap(caps.cr) && is_cap(caps.ir) && is_cap(caps.fx) && is_cap(caps.eq) && is_cap(caps.co)
}

// The cap of an asset class; a value that is no class has none.
#[tactic(auto, unfolding(crate::specs::Header::cap_for, octets::specs::Same::look_up, octets::specs::Same::same_bytes, octets::specs::Text::text))]
pub fn cap_for(caps: Caps, class: &[u8]) -> u64
    ensures { result ≡ cap_for caps class.now }
{
    match class {
        b"CR" => caps.cr,
        b"IR" => caps.ir,
        b"FX" => caps.fx,
        b"EQ" => caps.eq,
        b"CO" => caps.co,
        _ => 0,
    }
}

// The rows that a ledger of n bytes has room for, or the largest capacity where that is less.
#[tactic(auto, unfolding(crate::specs::Header::capacity_for))]
pub fn capacity_for(n: usize, largest: u32) -> u64
    ensures { result ≡ capacity_for largest n }
{
    let room = n.saturating_sub(HEADER_SIZE) / ROW_SIZE;
    (room as u64).min(u64::from(largest))
}

// The caps in a header.
#[tactic(auto, unfolding(crate::specs::Header::caps_in))]
fn read_caps(l: &[u8]) -> Caps
    ensures { result ≡ caps_in l.now }
{
    Caps {
        cr: read_at(l, CR_AT, U64),
        ir: read_at(l, IR_AT, U64),
        fx: read_at(l, FX_AT, U64),
        eq: read_at(l, EQ_AT, U64),
        co: read_at(l, CO_AT, U64),
    }
}

// The numbers of a header that a submission uses.
#[tactic(auto, unfolding(crate::specs::Header::header_of, crate::specs::Header::rows_in_use, crate::specs::Header::next_identifier, crate::specs::Header::capacity_in))]
fn read_numbers(l: &[u8]) -> Header
    ensures { result ≡ header_of l.now }
{
    Header {
        rows: read_at(l, ROWS_AT, U32),
        next: read_at(l, NEXT_AT, U64),
        capacity: read_at(l, CAPACITY_AT, U32),
        caps: read_caps(l),
        totals: read_totals(l),
    }
}

// Whether a ledger with these numbers is long enough and has a right header.
#[tactic(auto, unfolding(crate::specs::Header::header_right, crate::specs::Header::first_row, crate::specs::Header::size_of_rows, crate::specs::Header::header_of))]
fn is_right(l: &[u8], largest: u32, h: Header) -> bool
    requires { h ≡ header_of l.now }
    ensures { result ≡ header_right largest l.now }
{
    l.len() >= SHORTEST_LEDGER
        && read_at(l, FIRST_ROW_AT, U32) == HEADER_SIZE as u64
        && (1..=IDENTIFIER_LIMIT).contains(&h.next)
        && read_at(l, ROW_SIZE_AT, U32) == ROW_SIZE as u64
        && h.capacity == capacity_for(l.len(), largest)
        && h.rows <= h.capacity
        && are_caps(h.caps)
        && sum_of(h.totals) == h.rows
}

// The numbers of the ledger's header where it is right.
#[tactic(auto, unfolding(crate::specs::Header::checked_header))]
pub fn read_header(l: &[u8], largest: u32) -> Option<Header>
    ensures { result ≡ checked_header largest l.now }
{
    let h = read_numbers(l);
    if !is_right(l, largest, h) {
        return None;
    }
    Some(h)
}
