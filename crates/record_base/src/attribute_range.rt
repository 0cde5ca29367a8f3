//! Which values an attribute can have.
ghost use Rattle.std.specs.Prelude.{◌≡◌, ◌≤◌, nat_lt};
ghost use Rattle.std.specs.List.{list_all};
ghost use Rattle.record_base.specs.AttributeSizes.{most_indexes, most_text};

use crate::attribute_sizes::{MOST_INDEXES, MOST_TEXT};
use crate::attribute_value::{AttributeValue, ENUMERATION_TYPE, INTEGER_TYPE, STRING_TYPE};

/// How many possible values an enumeration has.
#[derive(Clone, Copy, PartialEq, Eq)]
pub struct PossibleValues {
    pub count: u8,
    ghost few: { count ≤ most_indexes },
}

/// How long a string is.
#[derive(Clone, Copy, Debug, PartialEq, Eq)]
pub struct TextLengths {
    pub least: u16,
    pub most: u16,
    ghost few: { most ≤ most_text },
}

/// Which numbers an integer can be: from the lower to the upper, by steps of the increment where that isn't 0.
#[derive(Clone, Copy, Debug, PartialEq, Eq)]
pub struct IntegerSteps {
    pub lower: u64,
    pub upper: u64,
    pub increment: u32,
}

/// Which values an attribute can have.
#[derive(Clone, Copy, PartialEq, Eq)]
pub enum AttributeRange {
    Enumeration(PossibleValues),
    Text(TextLengths),
    Integer(IntegerSteps),
}

/// Whether each index is below the number.
fn are_below(indexes: &[u8], count: u8) -> bool
    ensures { result ≡ list_all (λ index. nat_lt index count) indexes.now }
{
    indexes.iter().all(|index| *index < count)
}

impl PossibleValues {
    ghost use Rattle.std.specs.Prelude.{◌≡◌, ◌≤◌, ◌↔◌, IsTrue, IsSome, IfSome};
    ghost use Rattle.record_base.specs.declared.attribute_range.AttributeRange.TheVariants as range;
    ghost use Rattle.record_base.specs.declared.attribute_value.AttributeValue.TheVariants as value;
    ghost use Rattle.record_base.specs.AttributeRange.{AllowsIndexes, allows};

    /// A range of so many possible values, or nothing where they are too many.
    pub fn new(count: u8) -> Option<PossibleValues>
        ensures made { IsSome result ↔ (count ≤ most_indexes) }
        ensures parts { IfSome result (λ made. made.count ≡ count) }
    {
        if usize::from(count) > MOST_INDEXES {
            return None;
        }
        Some(PossibleValues { count })
    }

    /// Whether these are indexes of possible values: at least one index, and no more indexes than possible values.
    pub fn allows(self, indexes: &[u8]) -> bool
        ensures test { result ≡ allows (range.Enumeration self) (value.Indexes indexes.now) }
        ensures means { IsTrue result ↔ AllowsIndexes self.count indexes.now }
    {
        if indexes.len() == 0 || indexes.len() > usize::from(self.count) {
            return false;
        }
        are_below(indexes, self.count)
    }
}

impl TextLengths {
    ghost use Rattle.std.specs.Prelude.{◌≡◌, ◌≤◌, ◌↔◌, IsTrue, IsSome, IfSome};
    ghost use Rattle.record_base.specs.declared.attribute_range.AttributeRange.TheVariants as range;
    ghost use Rattle.record_base.specs.declared.attribute_value.AttributeValue.TheVariants as value;
    ghost use Rattle.record_base.specs.AttributeRange.{AllowsText, allows};

    /// A text's lengths, or nothing where the most is too much.
    pub fn new(least: u16, most: u16) -> Option<TextLengths>
        ensures made { IsSome result ↔ (most ≤ most_text) }
        ensures parts { IfSome result (λ made. (made.least ≡ least) × (made.most ≡ most)) }
    {
        if usize::from(most) > MOST_TEXT {
            return None;
        }
        Some(TextLengths { least, most })
    }

    /// Whether a text has one of these lengths.
    pub fn allows(self, text: &[u8]) -> bool
        ensures test { result ≡ allows (range.Text self) (value.Text text.now) }
        ensures means { IsTrue result ↔ AllowsText self text.now }
    {
        usize::from(self.least) <= text.len() && text.len() <= usize::from(self.most)
    }
}

impl IntegerSteps {
    ghost use Rattle.std.specs.Prelude.{◌≡◌, ◌↔◌, IsTrue};
    ghost use Rattle.record_base.specs.declared.attribute_range.AttributeRange.TheVariants as range;
    ghost use Rattle.record_base.specs.declared.attribute_value.AttributeValue.TheVariants as value;
    ghost use Rattle.record_base.specs.AttributeRange.{AllowsNumber, allows};

    /// Whether the attribute can have the number.
    pub fn allows(self, number: u64) -> bool
        ensures test { result ≡ allows (range.Integer self) (value.Number number) }
        ensures means { IsTrue result ↔ AllowsNumber self number }
    {
        if number < self.lower || number > self.upper {
            return false;
        }
        self.increment == 0 || (number - self.lower) % u64::from(self.increment) == 0
    }
}

impl AttributeRange {
    ghost use Rattle.std.specs.Prelude.{◌≡◌};
    ghost use Rattle.record_base.specs.AttributeRange.{allows, type_of};

    /// The type of an attribute with these values.
    pub fn type_code(&self) -> u8
        ensures { result ≡ type_of self.now }
    {
        match self {
            AttributeRange::Enumeration(_) => ENUMERATION_TYPE,
            AttributeRange::Text(_) => STRING_TYPE,
            AttributeRange::Integer(_) => INTEGER_TYPE,
        }
    }

    /// Whether an attribute can have the value.
    pub fn allows(&self, value: &AttributeValue<'_>) -> bool
        ensures { result ≡ allows self.now value.now }
    {
        match (self, value) {
            (AttributeRange::Enumeration(possible), AttributeValue::Indexes(indexes)) => {
                possible.allows(indexes.as_slice())
            }
            (AttributeRange::Text(lengths), AttributeValue::Text(text)) => {
                lengths.allows(text.as_slice())
            }
            (AttributeRange::Integer(steps), AttributeValue::Number(number)) => {
                steps.allows(*number)
            }
            _ => false,
        }
    }
}
