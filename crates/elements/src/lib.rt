// The elements of a message: the table of the specification's section 3, with a row for each code, and what is read off it: the messages that take and need an
// element, its form, and the conditions.
#![tactic(auto)]

mod conditions;
mod forms;
mod messages;
mod shown;
mod table;

pub use conditions::{Facts, Quote, QuoteCodes, facts_of, is_due, value_is};
pub use forms::has_form;
pub use messages::{has_layout, is_needed, is_taken, taken_up_to};
pub use shown::MessageFacts;
pub use table::LAST_CODE;

// The codes that a rule or the tape line speaks of by name, as specs/Codes.antt has them.
// Stays: numbers, no enum: a message carries them as two bytes, the checks go through them in order, and refusals name them to a C host.
pub const UTI: u8 = 1;

pub const EVENT_TYPE: u8 = 3;

pub const EVENT_TIMESTAMP: u8 = 4;

pub const REPORTING_TIMESTAMP: u8 = 5;

pub const EXECUTION_TIMESTAMP: u8 = 6;

pub const EFFECTIVE_DATE: u8 = 7;

pub const EXPIRATION_DATE: u8 = 8;

pub const SETTLEMENT_DATE: u8 = 9;

pub const CLEARED: u8 = 10;

pub const NON_STANDARDIZED_TERM: u8 = 11;

pub const BLOCK_ELECTION: u8 = 12;

pub const LARGE_NOTIONAL_ELECTION: u8 = 13;

pub const PACKAGE_INDICATOR: u8 = 15;

pub const PACKAGE_PRICE: u8 = 17;

pub const PRICE_NOTATION: u8 = 18;

pub const PRICE_CURRENCY: u8 = 19;

pub const NOTIONAL_AMOUNT: u8 = 20;

pub const NOTIONAL_CURRENCY: u8 = 21;

pub const SETTLEMENT_LOCATION: u8 = 22;

pub const ASSET_CLASS: u8 = 25;

pub const PACKAGE_SPREAD: u8 = 26;

pub const SPREAD_NOTATION: u8 = 27;

pub const SPREAD_CURRENCY: u8 = 28;
