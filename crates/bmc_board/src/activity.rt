//! What isn't configuration.
ghost use Rattle.std.specs.Prelude.{◌≡◌, IfOk};
ghost use Rattle.bmc_board.specs.State.{opening};

use cfg_records::{BoardFile, Live};
use record_kinds::Stagings;
use sel_log::Sel;
use sensor_recs::{Readings, Sdr};
use std::alloc::{AllocError, Global};
use user_chan::Passwords;

/// What a board holds beside its records. It stays where it is, and requests change it there.
#[derive(Drop)]
pub struct Activity {
    /// What Get replies show beside records: the one part that kinds of record see.
    pub live: Live,
    /// The last readings of the sensors.
    pub readings: Readings,
    /// The repository of sensor data records.
    pub sdr: Sdr,
    /// The System Event Log.
    pub log: Sel,
    /// Boot parameter 0, set in progress: whether a requester says that it sets boot options (IPMI 2.0).
    pub boot_progress: bool,
    /// The users' passwords.
    pub passwords: Passwords,
    /// What requesters have staged of attributes' values.
    pub stagings: Stagings,
}

impl Activity {
    /// What a board of this file begins with. All memory is taken here.
    pub fn opening(alloc: Global, file: &BoardFile) -> Result<Activity, AllocError>
        ensures { IfOk result (λ activity. activity ≡ opening file.now) }
    {
        let Ok(mut log) = Sel::new(alloc, file.log.records) else {
            return Err(AllocError);
        };
        log.set_time(file.clock);
        Ok(Activity {
            live: Live::opening(),
            readings: Readings::new(alloc)?,
            sdr: Sdr::new(alloc, &file.sdr)?,
            log,
            boot_progress: false,
            passwords: Passwords::opening(alloc)?,
            stagings: Stagings::opening(alloc)?,
        })
    }
}
