//! The BIOS attributes of a board.
ghost use Rattle.std.specs.Prelude.{◌≤◌, ◌<◌, ◌^◌, length};
ghost use Rattle.record_base.specs.AttributeSizes.{most_indexes};
ghost use Rattle.record_base.specs.AttributeRange.{AllowsIndexes, AllowsText, AllowsNumber};
ghost use Rattle.record_base.specs.AttributeRangeLaws.{AllowsIndexes-prop, AllowsText-prop, AllowsNumber-prop};

use crate::attribute_range::{AttributeRange, IntegerSteps, PossibleValues, TextLengths};
use crate::attribute_sizes::{MOST_FEW, MOST_INDEXES, MOST_NAME};
use crate::attribute_value::{ENUMERATION_TYPE, INTEGER_TYPE, STRING_TYPE};
use crate::distinct::Numbered;
use crate::items::Items;
use crate::key::Key;
use crate::start_value::StartValue;
use std::alloc::{AllocError, Global};
use two_wire::Bytes;

/// A short text: a name, or a possible value.
pub type Text = Bytes<{ MOST_NAME }>;

/// The indexes of possible values.
pub type Indexes = Bytes<{ MOST_INDEXES }>;

/// An attribute that is one of its possible values, or several.
#[derive(Debug)]
pub struct EnumerationAttribute {
    pub values: Items<Text>,
    pub default: Indexes,
    pub current: Indexes,
    ghost few: { length values ≤ most_indexes },
    ghost default_valid: { AllowsIndexes (length values) default } by { AllowsIndexes-prop (length values) default },
    ghost current_valid: { AllowsIndexes (length values) current } by { AllowsIndexes-prop (length values) current },
}

// Written out: the crates above would prove a derived one anew.
impl Drop for EnumerationAttribute {
    fn drop(self) {
        let EnumerationAttribute {
            values,
            default: _,
            current: _,
        } = self;
        drop(values);
    }
}

/// An attribute that is a text.
#[derive(Debug)]
pub struct StringAttribute {
    /// How its bytes are characters.
    pub string_type: u8,
    pub lengths: TextLengths,
    /// Each of the two texts has memory of its own, so that the string is small where it is moved.
    pub default: Items<u8>,
    pub current: Items<u8>,
    ghost default_valid: { AllowsText lengths default } by { AllowsText-prop lengths default },
    ghost current_valid: { AllowsText lengths current } by { AllowsText-prop lengths current },
}

// Written out: the crates above would prove a derived one anew.
impl Drop for StringAttribute {
    fn drop(self) {
        let StringAttribute {
            string_type: _,
            lengths: _,
            default,
            current,
        } = self;
        drop(default);
        drop(current);
    }
}

/// An attribute that is a number.
#[derive(Debug, Drop)]
pub struct IntegerAttribute {
    pub steps: IntegerSteps,
    pub default: u64,
    pub current: u64,
    ghost current_fits: { current < 2 ^ 64 },
    ghost default_valid: { AllowsNumber steps default } by { AllowsNumber-prop steps default },
    ghost current_valid: { AllowsNumber steps current } by { AllowsNumber-prop steps current },
}

/// What an attribute is.
#[derive(Debug)]
pub enum AttributeKind {
    Enumeration(EnumerationAttribute),
    Text(StringAttribute),
    Integer(IntegerAttribute),
}

// Written out: the crates above would prove a derived one anew.
impl Drop for AttributeKind {
    fn drop(self) {
        match self {
            AttributeKind::Enumeration(attribute) => drop(attribute),
            AttributeKind::Text(attribute) => drop(attribute),
            AttributeKind::Integer(_) => {}
        }
    }
}

/// An attribute of a board. Its handle is its place in the board's list, from 0.
#[derive(Debug)]
pub struct Attribute {
    pub handle: u16,
    pub name: Text,
    pub read_only: bool,
    pub kind: AttributeKind,
}

// Written out: the crates above would prove a derived one anew.
impl Drop for Attribute {
    fn drop(self) {
        let Attribute {
            handle: _,
            name: _,
            read_only: _,
            kind,
        } = self;
        drop(kind);
    }
}

impl Numbered for Attribute {
    ghost number_of = { λ attribute. attribute.handle };

    fn number(&self) -> u16 {
        self.handle
    }
}

impl EnumerationAttribute {
    ghost use Rattle.std.specs.Prelude.{◌≡◌, ◌≤◌, ◌↔◌, IsSome, IfSome, length};
    ghost use Rattle.record_base.specs.AttributeSizes.{most_indexes};
    ghost use Rattle.record_base.specs.AttributeRange.{AllowsIndexes};
    ghost use Rattle.record_base.specs.declared.attribute_value.AttributeValue.TheVariants.{Indexes};
    ghost use Rattle.record_base.specs.AttributeValue.{value_bytes};

    /// An enumeration with these possible values, or nothing where these are too many, or where it can't have a value.
    pub fn new(values: Vec<Text>, default: Indexes, current: Indexes) -> Option<Self>
        ensures made { IsSome result ↔ ((length values.items ≤ most_indexes)
            × AllowsIndexes (length values.items) default
            × AllowsIndexes (length values.items) current) }
        ensures parts { IfSome result (λ made. (made.values ≡ values.items)
            × (made.default ≡ default) × (made.current ≡ current)) }
    {
        if values.len() > MOST_INDEXES {
            return None;
        }
        let possible = PossibleValues {
            count: values.len() as u8,
        };
        if !possible.allows(default.as_slice()) || !possible.allows(current.as_slice()) {
            return None;
        }
        Some(EnumerationAttribute {
            values: Items::new(values),
            default,
            current,
        })
    }

    /// The bytes of the value that it begins with.
    fn value(&self) -> StartValue
        ensures { result ≡ value_bytes (Indexes self.now.current) }
    {
        let mut value = Bytes::<{ MOST_FEW }>::new();
        value.push(self.current.len() as u8);
        value.extend_from_slice(self.current.as_slice());
        StartValue::few(value.as_slice())
    }
}

impl StringAttribute {
    ghost use Rattle.std.specs.Prelude.{◌≡◌, ◌↔◌, IsSome, IfSome, IfOk};
    ghost use Rattle.record_base.specs.AttributeRange.{AllowsText};
    ghost use Rattle.record_base.specs.declared.attribute_value.AttributeValue.TheVariants.{Text};
    ghost use Rattle.record_base.specs.AttributeValue.{value_bytes};

    /// A string with these lengths, or nothing where it can't have a value.
    pub fn new(
        string_type: u8,
        lengths: TextLengths,
        default: Vec<u8>,
        current: Vec<u8>,
    ) -> Option<Self>
        ensures made { IsSome result
            ↔ (AllowsText lengths default.items × AllowsText lengths current.items) }
        ensures texts { IfSome result
            (λ made. (made.default ≡ default.items) × (made.current ≡ current.items)) }
        ensures parts { IfSome result
            (λ made. (made.string_type ≡ string_type) × (made.lengths ≡ lengths)) }
    {
        if !lengths.allows(default.as_slice()) || !lengths.allows(current.as_slice()) {
            return None;
        }
        Some(StringAttribute {
            string_type,
            lengths,
            default: Items::new(default),
            current: Items::new(current),
        })
    }

    /// The bytes of the value that it begins with.
    fn value(&self, alloc: Global) -> Result<StartValue, AllocError>
        ensures { IfOk result (λ value. value ≡ value_bytes (Text self.now.current)) }
    {
        let text = self.current.as_slice();
        let mut value = Vec::with_capacity(alloc, 2 + text.len())?;
        value.extend_from_slice(&(text.len() as u16).to_le_bytes())?;
        value.extend_from_slice(text)?;
        Ok(StartValue::many(value))
    }
}

impl IntegerAttribute {
    ghost use Rattle.std.specs.Prelude.{◌≡◌, ◌↔◌, IsSome, IfSome};
    ghost use Rattle.record_base.specs.AttributeRange.{AllowsNumber};

    /// An integer with these steps, or nothing where it can't have a value.
    pub fn new(steps: IntegerSteps, default: u64, current: u64) -> Option<Self>
        ensures made { IsSome result ↔ (AllowsNumber steps default × AllowsNumber steps current) }
        ensures parts { IfSome result (λ made. (made.steps ≡ steps)
            × (made.default ≡ default) × (made.current ≡ current)) }
    {
        if !steps.allows(default) || !steps.allows(current) {
            return None;
        }
        Some(IntegerAttribute {
            steps,
            default,
            current,
        })
    }
}

impl AttributeKind {
    ghost use Rattle.std.specs.Prelude.{◌≡◌, ◌≤◌, IfOk};
    ghost use Rattle.record_base.specs.AttributeValue.{value_bytes};
    ghost use Rattle.record_base.specs.Attribute.{type_of_kind, range_of, current_of};

    /// The type of such an attribute.
    pub fn type_code(&self) -> u8
        ensures value { result ≡ type_of_kind self.now }
        ensures small { result ≤ 127 }
    {
        match self {
            AttributeKind::Enumeration(_) => ENUMERATION_TYPE,
            AttributeKind::Text(_) => STRING_TYPE,
            AttributeKind::Integer(_) => INTEGER_TYPE,
        }
    }

    /// Which values it can have.
    pub fn range(&self) -> AttributeRange
        ensures { result ≡ range_of self.now }
    {
        match self {
            AttributeKind::Enumeration(enumeration) => {
                let _ = &enumeration.values;
                let count = enumeration.values.as_slice().len() as u8;
                AttributeRange::Enumeration(PossibleValues { count })
            }
            AttributeKind::Text(string) => AttributeRange::Text(string.lengths),
            AttributeKind::Integer(integer) => AttributeRange::Integer(integer.steps),
        }
    }

    /// The bytes of the value that it begins with.
    pub fn value(&self, alloc: Global) -> Result<StartValue, AllocError>
        ensures { IfOk result (λ value. value ≡ value_bytes (current_of self.now)) }
    {
        Ok(match self {
            AttributeKind::Enumeration(enumeration) => enumeration.value(),
            AttributeKind::Text(string) => string.value(alloc)?,
            AttributeKind::Integer(integer) => StartValue::few(&integer.current.to_le_bytes()),
        })
    }
}

impl Attribute {
    ghost use Rattle.std.specs.Prelude.{◌≡◌, IfOk};
    ghost use Rattle.record_base.specs.Attribute.{attribute_value};

    /// The record of the attribute.
    pub fn pair(&self, alloc: Global) -> Result<(Key, StartValue), AllocError>
        ensures { IfOk result
            (λ pair. pair ≡ (Key.BiosAttribute self.now.handle, attribute_value self.now)) }
    {
        Ok((Key::BiosAttribute(self.handle), self.kind.value(alloc)?))
    }
}
