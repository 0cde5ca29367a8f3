//! The records of a board file's LAN parameters.
use crate::board_file::BoardFile;
use record_base::{AtOnce, Key, LanAddress, LanParameter, StartValue};
use std::alloc::{AllocError, Global};

impl BoardFile {
    ghost use Rattle.std.specs.Prelude.{◌≡◌, ◌++◌, IfOk, OnOk};
    ghost use Rattle.cfg_records.specs.Boards.{joined};
    ghost use Rattle.cfg_records.specs.LanBoards.{lan_pairs, lan_kinds};

    /// The records of one parameter, in the channels' order.
    fn lan_pairs(
        &self,
        alloc: Global,
        parameter: LanParameter,
    ) -> Result<AtOnce<(Key, StartValue)>, AllocError>
        ensures { IfOk result (λ pairs. pairs.items.items ≡ lan_pairs self.now parameter) }
    {
        let lans = self.lans.items.as_slice();
        lans.iter().map(|l| l.pair(parameter)).collect(alloc)
    }

    /// Adds the records of one parameter.
    fn push_parameter(
        &self,
        alloc: Global,
        parameter: LanParameter,
        pairs: &mut Vec<(Key, StartValue)>,
    ) -> Result<(), AllocError>
        ensures { OnOk result (pairs.new.items ≡ pairs.old.items ++ lan_pairs self.now parameter) }
    {
        let mut more = self.lan_pairs(alloc, parameter)?.items;
        pairs.append(&mut more)
    }

    /// Adds the records of each parameter, in the order of their numbers.
    pub(crate) fn push_lans(
        &self,
        alloc: Global,
        pairs: &mut Vec<(Key, StartValue)>,
    ) -> Result<(), AllocError>
        ensures { OnOk result (pairs.new.items ≡ joined pairs.old.items (lan_kinds self.now)) }
    {
        self.push_parameter(alloc, LanParameter::Address(LanAddress::Ip), pairs)?;
        self.push_parameter(alloc, LanParameter::AddressSource, pairs)?;
        self.push_parameter(alloc, LanParameter::Address(LanAddress::SubnetMask), pairs)?;
        let gateway = LanParameter::Address(LanAddress::DefaultGateway);
        self.push_parameter(alloc, gateway, pairs)?;
        self.push_parameter(alloc, LanParameter::Vlan, pairs)
    }
}
