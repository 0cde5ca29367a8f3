//! Tables in parts.
ghost use Rattle.std.specs.Prelude.{◌≡◌};

/// How many bytes each part of a table has, but for the last.
pub const PART_LENGTH: usize = 192;

/// How many bytes an entry has at most that is given whole.
pub const MOST_WHOLE: usize = 205;

/// The transfer operation that asks for a later part, by its handle.
pub const GET_NEXT_PART: u8 = 0x00;

/// The transfer operation that asks for the first part.
pub const GET_FIRST_PART: u8 = 0x01;

/// Where a part stands among the parts of its table, the transfer flag of DSP0240.
#[derive(Clone, Copy, Debug, PartialEq, Eq)]
pub enum TransferFlag {
    Start = 0x01,
    Middle = 0x02,
    End = 0x04,
    StartAndEnd = 0x05,
}

impl TransferFlag {
    ghost use Rattle.pldm_base.specs.Parts.{flag_byte};

    /// The flag's byte.
    pub fn byte(self) -> u8
        ensures { result ≡ flag_byte self }
    {
        self as u8
    }
}

/// A part of a table.
#[derive(Clone, Copy)]
pub struct Part<'a> {
    /// The handle of the part behind this one, or 0 where this is the last.
    pub next: u32,
    pub flag: TransferFlag,
    /// At most 192 bytes of the table.
    pub bytes: &'a [u8],
}
