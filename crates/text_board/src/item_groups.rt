//! The items of a board file but its users, by the protocol that reaches them.
ghost use Rattle.std.specs.Prelude.{◌≡◌, [], IfOk, IfErr};
ghost use Rattle.toml.specs.View.{table_view};
ghost use Rattle.text_board.specs.Faults.{ipmi_faults, pldm_faults, IsFirstFault};
ghost use Rattle.text_board.specs.HoldsItems.{HoldsIpmi, HoldsPldm};

use crate::attribute_items::attributes;
use crate::channel_items::{FileChannels, file_channels};
use crate::effecters::numeric_effecters;
use crate::fault::FileFault;
use crate::lan_items::lans;
use crate::sensors::sensors;
use crate::state_items::state_effecters;
use crate::tables::TOP;
use cfg_records::Sensors;
use record_base::lan::Lans;
use record_base::{Attributes, NumericEffecters, StateEffecters};
use std::alloc::Global;
use text_fields::Checked;

/// The items that IPMI reaches.
#[derive(Drop)]
pub struct IpmiItems {
    pub sensors: Sensors,
    pub channels: FileChannels,
    pub lans: Lans,
}

/// The items of the file that IPMI reaches.
pub fn ipmi_items(alloc: Global, top: &Checked<'_>) -> Result<IpmiItems, FileFault>
    requires { top.now.rows.now ≡ TOP }
    ensures sound { IfOk result (λ _. ipmi_faults (table_view top.now.table.now) ≡ []) }
    ensures held { IfOk result (HoldsIpmi (table_view top.now.table.now)) }
    ensures err { IfErr result (IsFirstFault (ipmi_faults (table_view top.now.table.now))) }
{
    let sensors = sensors(alloc, top)?;
    let channels = file_channels(alloc, top)?;
    let lans = lans(alloc, top)?;
    Ok(IpmiItems {
        sensors,
        channels,
        lans,
    })
}

/// The items that PLDM reaches.
#[derive(Drop)]
pub struct PldmItems {
    pub attributes: Attributes,
    pub state_effecters: StateEffecters,
    pub numeric_effecters: NumericEffecters,
}

/// The items of the file that PLDM reaches.
pub fn pldm_items(alloc: Global, top: &Checked<'_>) -> Result<PldmItems, FileFault>
    requires { top.now.rows.now ≡ TOP }
    ensures sound { IfOk result (λ _. pldm_faults (table_view top.now.table.now) ≡ []) }
    ensures held { IfOk result (HoldsPldm (table_view top.now.table.now)) }
    ensures err { IfErr result (IsFirstFault (pldm_faults (table_view top.now.table.now))) }
{
    let attributes = attributes(alloc, top)?;
    let state_effecters = state_effecters(alloc, top)?;
    let numeric_effecters = numeric_effecters(alloc, top)?;
    Ok(PldmItems {
        attributes,
        state_effecters,
        numeric_effecters,
    })
}
