// The forms of values that are text (specification, section 4): runs of characters of one class, codes and LEIs.
// Each form is a test of any bytes; everything is matched byte for byte. Numbers and dates have crates of their own.
#![tactic(auto)]

mod code;
mod lei;
mod limits;
mod run;

pub use code::{
    is_allocation, is_asset_class, is_cleared, is_code, is_price_notation, is_spread_notation,
    is_true, is_truth,
};
pub use lei::is_lei;
pub use limits::{CURRENCY_SIZE, EVENT_SIZE, LOCATION_SIZE, UTI_MOST};
pub use run::{Class, in_class, is_event, is_package_identifier, is_uti, is_within, run_of};
