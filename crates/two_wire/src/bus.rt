//! The buses, and their names.
ghost use Rattle.std.specs.Prelude.{◌≡◌};
ghost use Rattle.two_wire.specs.Buses.{bus_name, IsNamed};

/// A bus of the controller.
#[derive(Clone, Copy, Debug, PartialEq, Eq)]
pub enum Bus {
    /// The Intelligent Platform Management Bus, which carries IPMI messages.
    Ipmb,
    /// The System Management Bus, which carries MCTP packets.
    Smbus,
}

impl Bus {
    /// The bus's name in command lines and texts.
    pub fn name(self) -> &'static str
        ensures { result.now ≡ bus_name self }
    {
        match self {
            Bus::Ipmb => "ipmb",
            Bus::Smbus => "smbus",
        }
    }

    /// The bus of this name, or `None` where no bus has it.
    pub fn named(word: &str) -> Option<Bus>
        ensures { IsNamed word.now result }
    {
        match word {
            "ipmb" => Some(Bus::Ipmb),
            "smbus" => Some(Bus::Smbus),
            _ => None,
        }
    }
}
