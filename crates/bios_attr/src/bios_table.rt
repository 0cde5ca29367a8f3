//! Which tables there are.

/// A table that tells of a board's attributes, by its number.
#[derive(Clone, Copy, PartialEq, Eq)]
pub enum BiosTable {
    /// The texts of names and possible values.
    Strings = 0,
    /// The attributes.
    Attributes = 1,
    /// The values that they have.
    Values = 2,
}
