//! What happens on a board beside requests.
ghost use Rattle.std.specs.Prelude.{◌≡◌, ◌<◌, All};
ghost use Rattle.bmc_board.specs.Sensing.{compared_at, logs, after_events, after_tick, bench_of, NamesNoSensor};
ghost use Rattle.bmc_board.specs.Serves.{after_read};

use super::serve::value_at;
use crate::bench::{Bench, NoSensor};
use crate::board::Board;
use cfg_records::mask::has;
use cfg_records::{Key, Sensor, Store, byte_at};
use record_base::event_enable::SCANNING_PLACE;
use sel_log::Sel;
use sensor_recs::{Comparator, Events};
use watch_boot::watchdog;

/// The bit of the global enables that says whether events go into the System Event Log.
const LOGGING_PLACE: usize = 3;

/// Adds to the log each event that a reading of the sensor makes. A full log refuses, and notes that.
fn log_events(log: &mut Sel, sensor: &Sensor, compared: &Comparator, reading: u8, events: &Events)
    requires { All (λ event. event.place < 6) events.now.items }
    ensures { log.new ≡ after_events sensor.now compared.now reading events.now.items log.old }
{
    for event in events.as_slice() {
        let record = compared.log_record(sensor.sensor_type, sensor.number, reading, event);
        let _ = log.add(&record);
    }
}

impl<S: Store> Board<S> {
    ghost use Rattle.std.specs.Prelude.{◌≡◌, ◌↔◌, OnErr, IsErr};
    ghost use Rattle.bmc_board.specs.State.{state_of, IsUnchanged};

    /// What readings of the sensor are compared with.
    fn compared(&self, sensor: &Sensor) -> Comparator
        ensures { result ≡ compared_at (S.records self.now.records.store) sensor.now }
    {
        Comparator::of(
            sensor.thresholds.masks,
            value_at(&self.records.store, &Key::Thresholds(sensor.number)),
            value_at(&self.records.store, &Key::Hysteresis(sensor.number)),
            value_at(&self.records.store, &Key::EventEnable(sensor.number)),
        )
    }

    /// Whether events go into the log.
    fn logs_events(&self) -> bool
        ensures { result ≡ logs (S.records self.now.records.store) }
    {
        has(
            byte_at(value_at(&self.records.store, &Key::GlobalEnables), 0),
            LOGGING_PLACE,
        )
    }

    /// The sensor gives a reading, which is taken only while the sensor scans.
    fn take_reading(&mut self, sensor: &Sensor, reading: u8)
        ensures left { self.new.activity
            ≡ after_read self.old sensor.now reading }
        ensures records { S.records self.new.records.store ≡ S.records self.old.records.store }
        ensures setup { self.new.setup ≡ self.old.setup }
    {
        let events = value_at(&self.records.store, &Key::EventEnable(sensor.number));
        if !has(byte_at(events, 0), SCANNING_PLACE) {
            return;
        }
        let compared = self.compared(sensor);
        let last = self.activity.readings.last(sensor.number);
        let (taken, events) = compared.take(&last, reading);
        self.activity.readings.put(sensor.number, taken);
        if self.logs_events() {
            log_events(&mut self.activity.log, sensor, &compared, reading, &events);
        }
    }

    /// A tenth of a second passes.
    fn tick(&mut self)
        ensures left { self.new.activity
            ≡ after_tick (S.records self.old.records.store) self.old.activity }
        ensures records { S.records self.new.records.store ≡ S.records self.old.records.store }
        ensures setup { self.new.setup ≡ self.old.setup }
    {
        let settings = value_at(&self.records.store, &Key::Watchdog);
        watchdog::live_after_tick(settings, &mut self.activity.live);
        self.activity.log.tick();
    }

    /// What happens on the board beside requests. It takes no memory, and leaves every record. A reading of a sensor that isn't there
    /// changes nothing.
    pub fn bench(&mut self, event: Bench) -> Result<(), NoSensor>
        ensures happens { (result, state_of self.new)
            ≡ bench_of self.old.setup (state_of self.old) event }
        ensures records { S.records self.new.records.store ≡ S.records self.old.records.store }
        ensures setup { self.new.setup ≡ self.old.setup }
        ensures unknown { IsErr result ↔ NamesNoSensor self.old.setup event }
        ensures refused { OnErr result
            (IsUnchanged (state_of self.old) (state_of self.new)) }
    {
        match event {
            Bench::Reading { sensor, raw } => {
                let Some(sensor) = self.setup.sensor(sensor) else {
                    return Err(NoSensor);
                };
                let sensor = *sensor;
                self.take_reading(&sensor, raw);
            }
            Bench::Tick => self.tick(),
            Bench::Chassis(bits) => self.activity.live.chassis = bits,
        }
        Ok(())
    }
}
