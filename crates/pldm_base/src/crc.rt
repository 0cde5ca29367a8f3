//! The CRC-32 of a table.
ghost use Rattle.std.specs.Prelude.{◌≤◌, List, Bool, false, ◌∷◌, ◌++◌, length};
ghost use Rattle.two_wire.specs.Bits.{bits};
ghost use Rattle.pldm_base.specs.Crc.{IsCrc32};
ghost use Rattle.pldm_base.specs.Register.{ReducesTo, loaded};

// The coefficients of the divisor below the highest, with that of the power 31 in bit 0.
const DIVISOR: u32 = 0xEDB8_8320;

/// The CRC-32 of the bytes, as in the frame check sequence of IEEE 802.3 and at the end of the tables of DSP0247.
pub fn crc32(bytes: &[u8]) -> u32
    ensures { IsCrc32 bytes.now result }
{
    let mut register = u32::MAX;
    for byte in bytes {
        register = with_byte(register, *byte);
    }
    !register
}

// The register once a byte more is divided.
fn with_byte(register: u32, byte: u8) -> u32
    ensures { (rest : List Bool) → 32 ≤ length rest
        → ReducesTo (loaded register (bits 8 byte ++ rest)) (loaded result rest) }
{
    let mut next = register ^ u32::from(byte);
    for _ in 0..8u8 {
        next = with_bit(next);
    }
    next
}

// The register once a bit more is divided: the coefficient of the highest power, in bit 0, is taken away, and the
// divisor with it where it is 1.
fn with_bit(register: u32) -> u32
    ensures { (rest : List Bool) → 32 ≤ length rest
        → ReducesTo (loaded register (false ∷ rest)) (loaded result rest) }
{
    if register & 1 == 1 {
        register >> 1 ^ DIVISOR
    } else {
        register >> 1
    }
}
