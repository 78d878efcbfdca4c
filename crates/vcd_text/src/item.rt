//! What a reader returns of the body of a text.
use crate::Digits;

/// An item of the body of a text.
#[derive(Debug, Drop)]
pub enum Item {
    /// A time, in units of the text's time scale. Times don't decrease.
    Time(u64),
    /// A change of the variables of a code, which is given by its number: its place among the
    /// distinct codes, by first declaration. There is at least one digit, and no more than the
    /// code's size.
    Change { code: u32, digits: Digits },
}
