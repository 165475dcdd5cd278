// The ledger of swaps and the tape line: specification, sections 7 and 8.
#![tactic(auto)]

mod change;
mod header;
mod layout;
mod line;
mod opening;
mod row;
mod rows;
mod search;
mod totals;

pub use change::{Change, Line};
pub use header::{Caps, Header, are_caps, cap_for, capacity_for, read_header};
pub use layout::{HEADER_SIZE, IDENTIFIER_LIMIT, ROW_SIZE, SHORTEST_LEDGER, TOTALS};
pub use line::{LINE_SIZE, write_line};
pub use opening::write_header;
pub use rows::{store_row, update_header};
pub use search::{Swap, find_swap, terms_at, time_of};
pub use totals::{Totals, in_order, total_of};
