// Sizes and offsets in bytes, as specs/Layout.antt has them.
use terms::SIZE;
use values::UTI_MOST;

// Numbers of one, four and eight bytes.
pub const U8: usize = 1;

pub const U32: usize = 4;

pub const U64: usize = 8;

// The header.
pub const ROWS_AT: usize = 0;

pub const FIRST_ROW_AT: usize = ROWS_AT + U32;

pub const NEXT_AT: usize = FIRST_ROW_AT + U32;

// The caps of the asset classes.
pub const CR_AT: usize = NEXT_AT + U64;

pub const IR_AT: usize = CR_AT + U64;

pub const FX_AT: usize = IR_AT + U64;

pub const EQ_AT: usize = FX_AT + U64;

pub const CO_AT: usize = EQ_AT + U64;

pub const ROW_SIZE_AT: usize = CO_AT + U64;

pub const CAPACITY_AT: usize = ROW_SIZE_AT + U32;

// The totals by status, from live to ported.
pub const TOTALS_AT: usize = CAPACITY_AT + U32;

// How many there are.
pub const TOTALS: usize = 4;

pub const TOTALS_SIZE: usize = TOTALS * U32;

pub const HEADER_SIZE: usize = TOTALS_AT + TOTALS_SIZE;

// A row.
pub const STATUS_AT: usize = 0;

pub const LENGTH_AT: usize = STATUS_AT + U8;

pub const UTI_AT: usize = LENGTH_AT + U8;

pub const UTI_SIZE: usize = UTI_MOST;

pub const IDENTIFIER_AT: usize = UTI_AT + UTI_SIZE;

pub const TERMS_AT: usize = IDENTIFIER_AT + U64;

pub const TAIL_AT: usize = TERMS_AT + SIZE;

pub const TAIL_SIZE: usize = 5;

pub const ROW_SIZE: usize = TAIL_AT + TAIL_SIZE;

// A ledger has at least one row.
pub const SHORTEST_LEDGER: usize = HEADER_SIZE + ROW_SIZE;

// Identifiers are given up to the one before this.
pub const IDENTIFIER_LIMIT: u64 = 1_000_000_000_000;
