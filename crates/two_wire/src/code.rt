//! Completion codes of refused requests.
ghost use Rattle.std.specs.Prelude.{◌≡◌, ◌<◌, [], ◌∷◌};
ghost use Rattle.std.specs.Option.{SomeIff};
ghost use Rattle.two_wire.specs.Codes as codes;

use std::marker::Model;

/// A completion code other than 00h, which stands for success.
#[derive(Clone, Copy, Debug, PartialEq, Eq)]
pub struct Code {
    value: u8,
}

impl Model for Code {
    ghost use Rattle.std.specs.Prelude.{ℕ, ◌<◌};

    ghost Value = { ℕ };

    ghost view = { λ c. c.value };

    ghost invariant = { λ c. 0 < c.value };

    ghost inverse = { λ n. record { value = n } };
}

/// IPMI: the controller has no room for the request now.
pub const NODE_BUSY: Code = Code { value: 0xC0 };

/// IPMI, Reset Watchdog Timer: the timer was never set.
pub const UNINITIALIZED_WATCHDOG: Code = Code { value: 0x80 };

/// IPMI: the command isn't one of the controller's.
pub const INVALID_COMMAND: Code = Code { value: 0xC1 };

/// IPMI: the command isn't one of the addressed logical unit's.
pub const INVALID_FOR_LUN: Code = Code { value: 0xC2 };

/// IPMI: what the request would store has no room.
pub const OUT_OF_SPACE: Code = Code { value: 0xC4 };

/// IPMI: the reservation isn't the present one.
pub const RESERVATION_CANCELED: Code = Code { value: 0xC5 };

/// IPMI: the command doesn't take so many bytes of data.
pub const INVALID_LENGTH: Code = Code { value: 0xC7 };

/// IPMI: a parameter of the request is out of its range.
pub const OUT_OF_RANGE: Code = Code { value: 0xC9 };

/// IPMI: the reply has no room for so many bytes as are asked for.
pub const TOO_MANY_BYTES: Code = Code { value: 0xCA };

/// IPMI: the sensor, record or other thing that is asked for isn't there.
pub const NOT_PRESENT: Code = Code { value: 0xCB };

/// IPMI: a field of the data isn't valid.
pub const INVALID_DATA_FIELD: Code = Code { value: 0xCC };

/// PLDM: the request isn't carried out, for no reason that has a code of its own.
pub const PLDM_ERROR: Code = Code { value: 0x01 };

/// PLDM: the data isn't valid.
pub const PLDM_INVALID_DATA: Code = Code { value: 0x02 };

/// PLDM: the command doesn't take so many bytes of data.
pub const PLDM_INVALID_LENGTH: Code = Code { value: 0x03 };

/// PLDM: the controller isn't ready for the request now.
pub const PLDM_NOT_READY: Code = Code { value: 0x04 };

/// PLDM: the command isn't one of the type's.
pub const PLDM_UNSUPPORTED_COMMAND: Code = Code { value: 0x05 };

/// PLDM: the type isn't one of the controller's.
pub const PLDM_INVALID_TYPE: Code = Code { value: 0x20 };

/// PLDM, commands of effecters: no effecter has this id.
pub const PLDM_INVALID_EFFECTER: Code = Code { value: 0x80 };

/// PLDM, SetStateEffecterStates: a field can't be set to this state.
pub const PLDM_INVALID_STATE: Code = Code { value: 0x81 };

/// PLDM, GetBIOSTable: the controller hasn't the table.
pub const PLDM_NO_TABLE: Code = Code { value: 0x83 };

/// PLDM, GetBIOSTable: no table has this number.
pub const PLDM_INVALID_TABLE: Code = Code { value: 0x85 };

/// PLDM, commands of BIOS attributes: no attribute has this handle.
pub const PLDM_INVALID_ATTRIBUTE: Code = Code { value: 0x88 };

/// The codes of IPMI, from the lowest, each by its constant. The clause ties a constant to the name that contracts have for it.
pub fn of_ipmi() -> [Code; 11]
    ensures { result ≡ codes.uninitialized_watchdog ∷ codes.node_busy ∷ codes.invalid_command
        ∷ codes.invalid_for_lun ∷ codes.out_of_space ∷ codes.reservation_canceled
        ∷ codes.invalid_length ∷ codes.out_of_range ∷ codes.too_many_bytes ∷ codes.not_present
        ∷ codes.invalid_data_field ∷ [] }
{
    [
        UNINITIALIZED_WATCHDOG,
        NODE_BUSY,
        INVALID_COMMAND,
        INVALID_FOR_LUN,
        OUT_OF_SPACE,
        RESERVATION_CANCELED,
        INVALID_LENGTH,
        OUT_OF_RANGE,
        TOO_MANY_BYTES,
        NOT_PRESENT,
        INVALID_DATA_FIELD,
    ]
}

/// The codes of PLDM, from the lowest, each by its constant.
pub fn of_pldm() -> [Code; 11]
    ensures { result ≡ codes.pldm_error ∷ codes.pldm_invalid_data ∷ codes.pldm_invalid_length
        ∷ codes.pldm_not_ready ∷ codes.pldm_unsupported_command ∷ codes.pldm_invalid_type
        ∷ codes.pldm_invalid_effecter ∷ codes.pldm_invalid_state ∷ codes.pldm_no_table
        ∷ codes.pldm_invalid_table ∷ codes.pldm_invalid_attribute ∷ [] }
{
    [
        PLDM_ERROR,
        PLDM_INVALID_DATA,
        PLDM_INVALID_LENGTH,
        PLDM_NOT_READY,
        PLDM_UNSUPPORTED_COMMAND,
        PLDM_INVALID_TYPE,
        PLDM_INVALID_EFFECTER,
        PLDM_INVALID_STATE,
        PLDM_NO_TABLE,
        PLDM_INVALID_TABLE,
        PLDM_INVALID_ATTRIBUTE,
    ]
}

impl Code {
    /// The code of this value, or nothing at 00h.
    pub fn new(value: u8) -> Option<Code>
        ensures { SomeIff result (0 < value) value }
    {
        if value == 0 {
            return None;
        }
        Some(Code { value })
    }

    /// The code's byte.
    pub fn value(self) -> u8
        ensures value { result ≡ self }
        ensures nonzero { 0 < result }
    {
        self.value
    }
}
