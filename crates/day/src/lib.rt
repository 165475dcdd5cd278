// A day of messages: where one ends and the next begins in the input, and the lines of the report. Specification, section 11.
#![tactic(auto)]

mod frame;
mod report;

pub use frame::{Frame, LENGTH_SIZE, LONGEST_FRAME, keep, next_frame};
pub use report::{LONGEST_LINE, write_heading, write_last, write_line};
