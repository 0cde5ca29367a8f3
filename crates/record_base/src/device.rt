//! The identity of a board.
ghost use Rattle.std.specs.Prelude.{◌<◌, ◌/◌, ◌%◌, ◌^◌};

/// Two decimal digits in a byte, the tens in its upper half (BCD).
#[derive(Clone, Copy, Debug)]
pub struct Bcd {
    pub byte: u8,
    ghost tens: { byte / 16 < 10 },
    ghost ones: { byte % 16 < 10 },
}

/// The number of a manufacturer, in 24 bits.
#[derive(Clone, Copy, Debug)]
pub struct ManufacturerId {
    pub number: u32,
    ghost three_bytes: { number < 2 ^ 24 },
}

/// The data of the Get Device ID reply (IPMI 2.0). The minor revision is in decimal digits.
#[derive(Clone, Copy, Debug)]
pub struct Device {
    pub id: u8,
    pub revision: u8,
    pub major: u8,
    pub minor: Bcd,
    pub support: u8,
    pub manufacturer: ManufacturerId,
    pub product: u16,
}

impl Bcd {
    ghost use Rattle.std.specs.Prelude.{◌≡◌, ◌<◌, ◌/◌, ◌%◌, ◌↔◌, IsSome, IfSome};

    /// The digits of this byte, or nothing where a digit is above 9.
    pub fn new(byte: u8) -> Option<Bcd>
        ensures made { IsSome result ↔ ((byte / 16 < 10) × (byte % 16 < 10)) }
        ensures byte { IfSome result (λ made. made.byte ≡ byte) }
    {
        if byte / 16 >= 10 || byte % 16 >= 10 {
            return None;
        }
        Some(Bcd { byte })
    }
}

impl ManufacturerId {
    ghost use Rattle.std.specs.Prelude.{◌≡◌, ◌<◌, ◌^◌, ◌↔◌, IsSome, IfSome};

    /// The manufacturer of this number, or nothing where the number has over 24 bits.
    pub fn new(number: u32) -> Option<ManufacturerId>
        ensures made { IsSome result ↔ (number < 2 ^ 24) }
        ensures number { IfSome result (λ made. made.number ≡ number) }
    {
        if number >= 1 << 24 {
            return None;
        }
        Some(ManufacturerId { number })
    }
}
