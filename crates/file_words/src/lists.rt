//! What a field that has a list can hold.
use record_base::BootParameter;
use record_base::attribute_sizes::{MOST_INDEXES, MOST_NAME};
use record_base::board_sizes::{MOST_STATE_FIELDS, MOST_USERS};
use record_base::lan_parameter::LanParameter;
use record_base::user_sizes::{
    LEAST_PRIVILEGE, MOST_MODE, MOST_PRIVILEGE, NO_ACCESS, USER_NAME_SIZE,
};
use std::alloc::AllocError;
use text_fields::lan::lan_parameter_in;
use text_fields::range::parameter_in;
use text_fields::tree::members_in;
use text_fields::{Field, LanShape, Shape};
use toml::Table;

/// What the data of a boot parameter are.
fn boot_data(named: Option<BootParameter>) -> &'static str {
    match named {
        Some(BootParameter::ValidBitClearing) => "a list of one number from 0 to 31, as param says",
        Some(BootParameter::InfoAcknowledge) => "a list of 2 bytes, as param says",
        Some(BootParameter::Flags) => "a list of 5 bytes, as param says",
        None => "the bytes of the parameter that param names",
    }
}

/// What the data of a LAN parameter are.
fn lan_data(named: LanParameter) -> &'static str {
    match named {
        LanParameter::Address(_) => "a list of 4 bytes",
        LanParameter::AddressSource => "a list of one number from 0 to 4",
        LanParameter::Vlan => "a list of 2 bytes, of which the second has bits 6:4 clear",
    }
}

/// What a field that has to do with LAN parameters can hold.
fn lan_words(shape: LanShape, item: &Table) -> &'static str {
    match shape {
        LanShape::Channel(_) => "the number of a [[channel]] of the file",
        LanShape::Parameter => "3, 4, 6, 12 or 20",
        LanShape::Bytes(named) => lan_data(named),
        LanShape::Named => match lan_parameter_in(item) {
            Some(named) => lan_data(named),
            None => "the bytes of the parameter that param names",
        },
    }
}

/// Adds what a list can hold that rests on other fields, and whether it is one.
fn push_dependent(text: &mut String, shape: &Shape, item: &Table) -> Result<bool, AllocError> {
    match shape {
        Shape::BootData => text.push_str(boot_data(parameter_in(item)))?,
        Shape::Lan(shape) => text.push_str(lan_words(*shape, item))?,
        Shape::States => {
            let fields = members_in(item, Field::States).len();
            write!(
                text,
                "a list of {fields}, each a state of its field's list in states"
            )?;
        }
        Shape::Indexes => {
            let values = members_in(item, Field::Values).len();
            write!(
                text,
                "a list of 1 to {values} indexes of values, counted from 0"
            )?;
        }
        Shape::UserBytes(users) => write!(
            text,
            "a list of {users}, one for each user: bit 7 clear, and {LEAST_PRIVILEGE} to {MOST_PRIVILEGE} or {NO_ACCESS} in bits 3:0"
        )?,
        _ => return Ok(false),
    }
    Ok(true)
}

/// Adds what a list of texts can hold, and whether it is one.
fn push_list_of_texts(text: &mut String, shape: &Shape) -> Result<bool, AllocError> {
    match shape {
        Shape::Records(most) => write!(
            text,
            "a list of at most {most} texts, each a sensor data record in hexadecimal digits"
        )?,
        Shape::Names => write!(
            text,
            "a list of 1 to {MOST_USERS} texts of at most {USER_NAME_SIZE} bytes, the first of them empty"
        )?,
        Shape::Values => write!(
            text,
            "a list of 1 to {MOST_INDEXES} texts of at most {MOST_NAME} bytes"
        )?,
        _ => return Ok(false),
    }
    Ok(true)
}

/// Adds what a list of numbers can hold, and whether it is one.
fn push_list_of_numbers(text: &mut String, shape: &Shape) -> Result<bool, AllocError> {
    match shape {
        Shape::Pair => text.push_str("a list of 2 bytes")?,
        Shape::BootFlags => text.push_str("a list of 5 bytes")?,
        Shape::Thresholds => text.push_str(
            "a list of 6 bytes: 0 where the sensor has none, and none above a higher one",
        )?,
        Shape::Watchdog => text.push_str(
            "a list of 4: use 0 to 5 and bit 7, actions 0 to 3 in bits 6:4 and in 2:0, 0 to 255, 0 to 65535",
        )?,
        Shape::Offsets => text.push_str("a list of numbers from 0 to 11")?,
        Shape::FewIndexes => write!(
            text,
            "a list of 1 to {MOST_INDEXES} bytes, and neither text nor number beside it"
        )?,
        Shape::Accesses => write!(
            text,
            "a list of 2 numbers from 0 to 63 whose bits 2:0 are at most {MOST_MODE}"
        )?,
        Shape::Limits => write!(
            text,
            "a list of 2 numbers from {LEAST_PRIVILEGE} to {MOST_PRIVILEGE}"
        )?,
        Shape::StateLists => write!(text, "a list of 1 to {MOST_STATE_FIELDS} lists of bytes")?,
        Shape::StateChanges => write!(
            text,
            "a list of 1 to {MOST_STATE_FIELDS} numbers from -1 to 255"
        )?,
        _ => return Ok(false),
    }
    Ok(true)
}

/// Adds what a field of this shape can hold, and whether it has a list, or has to do with LAN parameters.
pub(crate) fn push_lists(
    text: &mut String,
    shape: &Shape,
    item: &Table,
) -> Result<bool, AllocError> {
    if push_list_of_numbers(text, shape)? || push_list_of_texts(text, shape)? {
        return Ok(true);
    }
    push_dependent(text, shape, item)
}
