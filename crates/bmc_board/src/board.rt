//! A board.
ghost use Rattle.record_kinds.specs.Sound.{AreSoundRecords};
ghost use Rattle.record_kinds.specs.SoundLaws.{AreSoundRecords-prop};
ghost use Rattle.bmc_board.specs.RecordBytes.{values_in};
ghost use Rattle.bmc_board.specs.ToldTables.{TellsAttributes, KeepsValueTable};
ghost use Rattle.bmc_board.specs.BiosTableLaws.{TellsAttributes-prop, KeepsValueTable-prop};

mod bios;
mod happen;
mod lan;
mod opening;
mod parts;
mod serve;

use crate::activity::Activity;
use bios_attr::Tables;
use cfg_records::Store;
pub use opening::Records;
use record_kinds::{KeptRecords, Setup};

/// Whether the table of values that a board keeps is that of the values as they stand. A record that is written makes it stale.
#[derive(Clone, Copy, PartialEq, Eq)]
enum Kept {
    Stale,
    Current,
}

/// A board over any store of its records: what never changes of it, what isn't configuration, and its records. Each record has
/// limits, and a value that they allow.
pub struct Board<S: Store> {
    setup: Setup,
    activity: Activity,
    records: KeptRecords<S>,
    /// The tables of its attributes.
    tables: Tables,
    /// Of the table of values among the tables.
    kept: Kept,
    ghost sound: { AreSoundRecords setup (S.records records.store) } by { AreSoundRecords-prop setup (S.records records.store) },
    ghost tell: { TellsAttributes setup.attributes.items tables } by { TellsAttributes-prop setup.attributes.items tables },
    ghost is_kept: { KeepsValueTable kept setup.attributes.items (values_in (S.records records.store)) tables } by { KeepsValueTable-prop kept setup.attributes.items (values_in (S.records records.store)) tables },
}

/// A derived `drop` would be proved anew in each crate above that lets a board go, and so would those of its parts. This one is proved here.
impl<S: Store> Drop for Board<S> {
    fn drop(self) {
        let Board {
            setup,
            activity,
            records,
            tables,
            kept: _,
        } = self;
        drop(setup);
        drop(activity);
        drop(records);
        drop(tables);
    }
}
