//! What is wrong with a field.
use crate::field::Field;
use std::fmt;

/// What is wrong with a field of an item.
#[derive(Clone, Copy, Debug)]
pub enum FieldFault {
    /// The item lacks it.
    Missing(Field),
    /// The field's value is of another type.
    WrongType(Field),
    /// The item can't have its value.
    Range(Field),
}

impl fmt::Display for FieldFault {
    ghost use Rattle.std.specs.Prelude.{Some};
    ghost use Rattle.text_fields.specs.FaultNames.{field_fault_name};

    ghost output = { λ fault. Some (field_fault_name fault) };

    fn fmt<W: fmt::Write>(&self, f: &mut fmt::Formatter<W>) -> fmt::Result {
        match self {
            FieldFault::Missing(field) => write!(f, "Missing {field}"),
            FieldFault::WrongType(field) => write!(f, "WrongType {field}"),
            FieldFault::Range(field) => write!(f, "Range {field}"),
        }
    }
}
