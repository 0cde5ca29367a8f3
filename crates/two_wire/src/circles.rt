//! How many numbers tell requests and messages apart. They count up, and the first follows the last.
ghost use Rattle.std.specs.Prelude.{◌≡◌};
ghost use Rattle.two_wire.specs.Circles.{sequence_numbers, instances, tags};

/// How many sequence numbers IPMB has.
pub const SEQUENCE_NUMBERS: u8 = 64;

/// How many instances PLDM has, and MCTP control.
pub const INSTANCES: u8 = 32;

/// How many tags tell the messages of one endpoint apart.
pub const TAGS: u8 = 8;

/// Each constant is the definition of its name.
pub fn circles_are_the_definitions()
    ensures sequence_numbers { SEQUENCE_NUMBERS ≡ sequence_numbers }
    ensures instances { INSTANCES ≡ instances }
    ensures tags { TAGS ≡ tags }
{}
