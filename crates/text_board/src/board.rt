//! The text of a board file.
ghost use Rattle.std.specs.Prelude.{◌≡◌, ◌⊎◌, [], true, is_some, Err, IfOk, IfErr, map};
ghost use Rattle.std.specs.List.{list_all, AllZip};
ghost use Rattle.toml.specs.View.{view, table_view};
ghost use Rattle.text_fields.specs.Trees.{members_in, HasNumber, HasNumbers};
ghost use Rattle.text_fields.specs.Ranges.{record_in, settings};
ghost use Rattle.text_fields.specs.Faults.{field_faults};
ghost use Rattle.text_board.specs.Faults.{record_faults, own_part_faults, IsFirstFault};
ghost use Rattle.text_board.specs.Holds.{HoldsBoot, HoldsDevice, HoldsOwn, IsRecordIn, MembersAnswer, ReadsText};

use crate::check::checked;
use crate::fault::{FileFault, Item, Place};
use crate::item_groups::{ipmi_items, pldm_items};
use crate::tables::{DEVICE, TOP};
use crate::users::users;
use cfg_records::{
    BoardFile, Device, Distinct, LogCapacity, ManufacturerId, SdrRecord, SdrRecords,
};
use record_base::{BootOptions, GlobalEnables, PowerPolicy, Users, Watchdog};
use std::alloc::Global;
use text_fields::range::{boot_flags, digits, enables, record, watchdog};
use text_fields::tree::members_of;
use text_fields::{Checked, Field};
use toml::{Table, Value};

/// What the table says of its board.
fn device(item: &Checked<'_>) -> Device
    requires { item.now.rows.now ≡ DEVICE }
    ensures { HoldsDevice (table_view item.now.table.now) result }
{
    Device {
        id: item.byte(Field::Id),
        revision: item.byte(Field::Revision),
        major: item.byte(Field::Major),
        minor: digits(item.value(Field::Minor)).unwrap(),
        support: item.byte(Field::Support),
        manufacturer: ManufacturerId::new(item.number(Field::Manufacturer)).unwrap(),
        product: item.word(Field::Product),
    }
}

/// The global enables of the file.
fn global_enables(top: &Checked<'_>) -> GlobalEnables
    requires { top.now.rows.now ≡ TOP }
    ensures { HasNumber Field.Enables (table_view top.now.table.now) result.byte }
{
    enables(top.value(Field::Enables)).unwrap()
}

/// The sensor data records that these values are.
fn records_of(alloc: Global, values: &[Value]) -> Result<Vec<SdrRecord>, FileFault>
    requires { list_all (λ d. is_some (record_in d)) (map view values.now) ≡ true }
    ensures held { IfOk result (λ records. AllZip IsRecordIn (map view values.now) records.items) }
    ensures err { IfErr result (λ why. why ≡ FileFault.Memory) }
{
    let mut records = Vec::new(alloc);
    for value in values {
        match records.push(record(value).unwrap()) {
            Ok(()) => {}
            Err(_) => return Err(FileFault::Memory),
        }
    }
    Ok(records)
}

/// The sensor data records of the file.
fn sdr(alloc: Global, top: &Checked<'_>) -> Result<SdrRecords, FileFault>
    requires { top.now.rows.now ≡ TOP }
    ensures sound { IfOk result (λ _.
        record_faults (members_in Field.Sdr (table_view top.now.table.now)) ≡ []) }
    ensures held { IfOk result (λ sdr.
        AllZip IsRecordIn (members_in Field.Sdr (table_view top.now.table.now)) sdr.items) }
    ensures err { IfErr result (IsFirstFault
        (record_faults (members_in Field.Sdr (table_view top.now.table.now)))) }
{
    let records = records_of(alloc, members_of(top.value(Field::Sdr)))?;
    match Distinct::new(records) {
        Some(records) => Ok(records),
        None => Err(FileFault::Twice(Place {
            item: Item::Top,
            field: Field::Sdr,
        })),
    }
}

/// The boot options of the file.
fn boot_options(top: &Checked<'_>) -> BootOptions
    requires { top.now.rows.now ≡ TOP }
    ensures { HoldsBoot (table_view top.now.table.now) result }
{
    let clearing = top.byte(Field::Boot3);
    let acknowledge = top.byte(Field::Boot4);
    let five = top.value(Field::Boot5);
    let flags = boot_flags(five).unwrap();
    BootOptions::new(clearing, acknowledge, flags).unwrap()
}

/// The power policy of the file.
fn power_policy(top: &Checked<'_>) -> PowerPolicy
    requires { top.now.rows.now ≡ TOP }
    ensures { HasNumber Field.Policy (table_view top.now.table.now) result.number }
{
    PowerPolicy::new(top.byte(Field::Policy)).unwrap()
}

/// The settings of the file's watchdog timer.
fn timer(top: &Checked<'_>) -> Watchdog
    requires { top.now.rows.now ≡ TOP }
    ensures { HasNumbers Field.Watchdog (table_view top.now.table.now) (settings result) }
{
    watchdog(top.value(Field::Watchdog)).unwrap()
}

/// How many records the log of the file has room for.
fn log_capacity(top: &Checked<'_>) -> LogCapacity
    requires { top.now.rows.now ≡ TOP }
    ensures { HasNumber Field.Log (table_view top.now.table.now) result.records }
{
    LogCapacity::new(top.word(Field::Log)).unwrap()
}

/// What a file's own fields and `[device]` say.
#[derive(Drop)]
struct OwnParts {
    tid: u8,
    device: Device,
    enables: GlobalEnables,
    boot: BootOptions,
    policy: PowerPolicy,
    watchdog: Watchdog,
    clock: u32,
    log: LogCapacity,
    sdr: SdrRecords,
    users: Users,
}

/// What the file's own fields and `[device]` say.
fn own_parts(alloc: Global, top: &Checked<'_>) -> Result<OwnParts, FileFault>
    requires { top.now.rows.now ≡ TOP }
    ensures sound { IfOk result (λ _. own_part_faults (table_view top.now.table.now) ≡ []) }
    ensures held { IfOk result (HoldsOwn (table_view top.now.table.now)) }
    ensures err { IfErr result (IsFirstFault (own_part_faults (table_view top.now.table.now))) }
{
    let sdr = sdr(alloc, top)?;
    let board = checked(Item::Device, &DEVICE, top.table(Field::Device))?;
    let users = users(alloc, top)?;
    Ok(OwnParts {
        tid: top.byte(Field::Tid),
        device: device(&board),
        enables: global_enables(top),
        boot: boot_options(top),
        policy: power_policy(top),
        watchdog: timer(top),
        clock: top.number(Field::Clock),
        log: log_capacity(top),
        sdr,
        users,
    })
}

/// The board that the tree holds whose own fields have no fault, or its first fault.
fn board_in(alloc: Global, top: &Checked<'_>) -> Result<BoardFile, FileFault>
    requires rows { top.now.rows.now ≡ TOP }
    requires sound { field_faults TOP (table_view top.now.table.now) ≡ [] }
    ensures { (result ≡ Err FileFault.Memory)
        ⊎ MembersAnswer (table_view top.now.table.now) result }
{
    let own = own_parts(alloc, top)?;
    let ipmi = ipmi_items(alloc, top)?;
    let pldm = pldm_items(alloc, top)?;
    Ok(BoardFile {
        tid: own.tid,
        device: own.device,
        sensors: ipmi.sensors,
        enables: own.enables,
        boot: own.boot,
        policy: own.policy,
        watchdog: own.watchdog,
        clock: own.clock,
        log: own.log,
        sdr: own.sdr,
        numeric_effecters: pldm.numeric_effecters,
        state_effecters: pldm.state_effecters,
        users: own.users,
        channels: ipmi.channels.channels,
        sessionless: ipmi.channels.sessionless,
        user_accesses: ipmi.channels.accesses,
        attributes: pldm.attributes,
        lans: ipmi.lans,
    })
}

/// The board that the tree holds, or its first fault.
fn board_of(alloc: Global, tree: &Table) -> Result<BoardFile, FileFault>
    ensures { (result ≡ Err FileFault.Memory) ⊎ MembersAnswer (table_view tree.now) result }
{
    let top = checked(Item::Top, &TOP, tree)?;
    board_in(alloc, &top)
}

/// The board that the text holds, or why it is no board file: its first fault, in the order in which `TOP`, `DEVICE`, `SENSOR`,
/// `SESSIONS`, `LAN`, `ENUMERATION`, `STRING`, `INTEGER`, `STATE` and `NUMERIC` list fields. Keys that name no field are ignored.
pub fn read_board(alloc: Global, text: &str) -> Result<BoardFile, FileFault>
    ensures { (result ≡ Err FileFault.Memory) ⊎ ReadsText text.now result }
{
    match toml::table_from_str(alloc, text) {
        Ok(tree) => board_of(alloc, &tree),
        Err(error) if error.is_memory() => Err(FileFault::Memory),
        Err(_) => Err(FileFault::Text),
    }
}
