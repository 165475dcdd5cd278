// The header that opening writes.
ghost use Rattle.std.specs.Prelude.{◌≡◌, ◌≤◌, length};
ghost use Rattle.octets.specs.Part.{splice};
ghost use Rattle.octets.specs.Fields.{written};
ghost use Rattle.ledger.specs.Layout.{rows_at, caps_at, totals_at, header_size};
ghost use Rattle.ledger.specs.Header.{cap_fields, total_fields, new_header};

use crate::header::Caps;
use crate::layout::{
    CAPACITY_AT, CO_AT, CR_AT, EQ_AT, FIRST_ROW_AT, FX_AT, HEADER_SIZE, IR_AT, NEXT_AT, ROW_SIZE,
    ROW_SIZE_AT, ROWS_AT, TOTALS_AT, TOTALS_SIZE, U32, U64,
};
use octets::{fill_at, write_at};

// Writes the caps.
fn write_caps(dst: &mut [u8; HEADER_SIZE], caps: Caps)
    ensures { dst.new ≡ written caps_at (cap_fields caps) dst.old }
{
    write_at(dst, CR_AT, U64, caps.cr);
    write_at(dst, IR_AT, U64, caps.ir);
    write_at(dst, FX_AT, U64, caps.fx);
    write_at(dst, EQ_AT, U64, caps.eq);
    write_at(dst, CO_AT, U64, caps.co);
}

// Writes totals of 0.
fn write_totals(dst: &mut [u8; HEADER_SIZE])
    ensures { dst.new ≡ written totals_at total_fields dst.old }
{
    fill_at(dst, TOTALS_AT, TOTALS_SIZE, 0);
}

// Writes the whole header, field by field.
fn write_numbers(dst: &mut [u8; HEADER_SIZE], caps: Caps, capacity: u64)
    ensures { dst.new ≡ new_header caps capacity }
{
    write_at(dst, ROWS_AT, U32, 0);
    write_at(dst, FIRST_ROW_AT, U32, HEADER_SIZE as u64);
    write_at(dst, NEXT_AT, U64, 1);
    write_caps(dst, caps);
    write_at(dst, ROW_SIZE_AT, U32, ROW_SIZE as u64);
    write_at(dst, CAPACITY_AT, U32, capacity);
    write_totals(dst);
}

// Writes the header of a new ledger into its first bytes; later bytes stay.
pub fn write_header(l: &mut [u8], caps: Caps, capacity: u64)
    requires { header_size ≤ length l.old }
    ensures { l.new ≡ splice l.old rows_at (new_header caps capacity) }
{
    write_numbers(l.first_chunk_mut().unwrap(), caps, capacity);
}
