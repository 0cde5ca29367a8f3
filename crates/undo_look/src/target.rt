//! What a looker asks for.
ghost use Rattle.std.specs.Prelude.{◌≡◌};
ghost use Rattle.undo_look.specs.Targets.{bios_request, first_asked, next_at, operation_for, part_request, record_request, shown_alone as shown_alone_of, table_number};

use bios_attr::BiosTable;
use bios_attr::bios_attribute::BIOS;
use pldm_base::{GET_FIRST_PART, GET_NEXT_PART};
use record_base::{Asked, Key, RecordKind};
use record_kinds::Limits;
use two_wire::{Below, NetFn};
use undo_plans::shown_alone;

/// The network function of storage.
const STORAGE: u8 = 0x0A;

/// The numbers of the commands that reserve the repository of sensor data records, and that get a part of one.
const RESERVE_SDR_REPOSITORY: u8 = 0x22;

const GET_SDR: u8 = 0x23;

/// The number of the command that gets a part of a table of attributes.
const GET_BIOS_TABLE: u8 = 0x01;

/// A part of one of the controller's own tables. No request for one sets a configuration record.
#[derive(Clone, Copy)]
pub enum TablePart {
    /// A reservation of the repository of sensor data records (IPMI 2.0, Reserve SDR Repository).
    Reservation,
    /// So many bytes of a sensor data record, from an offset on, under a reservation (IPMI 2.0, Get SDR).
    SensorRecord {
        reservation: u16,
        id: u16,
        offset: u8,
        count: u8,
    },
    /// The part of a table of attributes that has this transfer handle, and the first for the handle 0 (DSP0247, GetBIOSTable).
    Bios {
        table: BiosTable,
        transfer: u32,
    },
}

/// What a looker asks for.
#[derive(Clone, Copy)]
pub enum Target {
    /// What the Get of a record shows.
    Record(Key),
    /// A part of one of the controller's own tables.
    Table(TablePart),
}

/// The number of a table of attributes.
fn table_number(table: BiosTable) -> u8
    ensures { result ≡ table_number table }
{
    table as u8
}

/// The transfer operation for this handle.
fn operation_for(transfer: u32) -> u8
    ensures { result ≡ operation_for transfer }
{
    if transfer == 0 {
        GET_FIRST_PART
    } else {
        GET_NEXT_PART
    }
}

/// The request for a part of a sensor data record.
fn record_request(reservation: u16, id: u16, offset: u8, count: u8) -> Asked
    ensures { result ≡ record_request reservation id offset count }
{
    let [reserved, reserved_high] = reservation.to_le_bytes();
    let [low, high] = id.to_le_bytes();
    let body = [reserved, reserved_high, low, high, offset, count];
    Asked::ipmi(NetFn::new(STORAGE), GET_SDR, &body)
}

/// The request for a part of a table of attributes.
fn bios_request(table: BiosTable, transfer: u32) -> Asked
    ensures { result ≡ bios_request table transfer }
{
    let [a, b, c, d] = transfer.to_le_bytes();
    let body = [a, b, c, d, operation_for(transfer), table_number(table)];
    Asked::pldm(Below::new(BIOS), GET_BIOS_TABLE, &body)
}

impl TablePart {
    /// The request for this part.
    fn request(&self) -> Asked
        ensures { result ≡ part_request self.now }
    {
        match self {
            TablePart::Reservation => {
                Asked::ipmi(NetFn::new(STORAGE), RESERVE_SDR_REPOSITORY, &[])
            }
            TablePart::SensorRecord {
                reservation,
                id,
                offset,
                count,
            } => record_request(*reservation, *id, *offset, *count),
            TablePart::Bios { table, transfer } => bios_request(*table, *transfer),
        }
    }
}

impl Target {
    /// The first request.
    pub(crate) fn first_asked(&self) -> Asked
        ensures { result ≡ first_asked self.now }
    {
        match self {
            Target::Record(key) => Limits::get_asked(key),
            Target::Table(part) => part.request(),
        }
    }

    /// The request for the part behind so many bytes of a record: a part of a table has none.
    pub(crate) fn next_asked(&self, transfer: u32) -> Option<Asked>
        ensures { result ≡ next_at self.now transfer }
    {
        match self {
            Target::Record(key) => Limits::get_next(key, transfer),
            Target::Table(_) => None,
        }
    }

    /// What the only reply shows.
    pub(crate) fn shown_alone<'a>(&self, body: &'a [u8]) -> &'a [u8]
        ensures { result.now ≡ shown_alone_of self.now body.now }
    {
        match self {
            Target::Record(key) => shown_alone(key, body),
            Target::Table(_) => body,
        }
    }
}
