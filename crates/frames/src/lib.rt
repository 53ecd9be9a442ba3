// The layers that files are read through: digits, lines and frames, and the faults of each.
#![tactic(auto)]

mod digits;
mod faults;
mod fields;
mod frame;
mod kind;
mod lines;
#[cfg(test)]
mod tests;
mod unread;

pub use digits::{
    DigitFault, MOST_DIGITS, NO_DIGIT, check_digits, digit_value, number, read_number,
};
pub use faults::{FileFault, next_frame};
pub use fields::{Field, number_at, read_fields};
pub use frame::{Frame, FrameFault, cut_frame};
pub use kind::{Kind, UnknownKind};
pub use lines::{LINE_END, MOST_BYTES, split_line};
pub use unread::Unread;
