//! The records of a sensor: its thresholds, its hysteresis and its enabled events. The readings of sensors, and the repository of
//! sensor data records.
#![tactic(auto)]

pub mod comparator;
pub mod event_enable;
pub mod hysteresis;
pub mod reading_events;
pub mod readings;
pub mod request;
pub mod sdr;
pub mod thresholds;

pub use comparator::{Comparator, Event, LastReading};
pub use event_enable::EventEnableLimits;
pub use hysteresis::HysteresisLimits;
pub use reading_events::Events;
pub use readings::Readings;
pub use sdr::{Sdr, SdrEntry};
pub use thresholds::ThresholdLimits;
