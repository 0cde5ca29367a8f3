//! Where the configuration records of a board are kept, plainly or in one byte image, the board file that they begin from, and how many are changed
//! since. It passes on the names of `record_base`, but for those of one kind of record alone.
#![tactic(auto)]

pub mod board_file;
pub mod changed;
mod image;
mod image_places;
pub mod index;
mod kept_record;
pub mod lan_records;
mod packed_store;
pub mod plain_store;
pub mod sample;
mod sorted_keys;
pub mod store;

pub use board_file::BoardFile;
pub use changed::changed_count;
pub use packed_store::PackedStore;
pub use plain_store::{PlainStore, StoreFault};
pub use record_base::{
    Answered, Asked, Bcd, CommandReader, Device, Distinct, Items, Key, Live, LogCapacity,
    ManufacturerId, Numbered, Op, RecordData, RecordKind, SdrRecord, SdrRecords, Sensor, Sensors,
    StartValue, Value, board_sizes, byte_at, mask, there_and_back,
};
pub use sample::sample_board;
pub use store::{NoKey, Store};
