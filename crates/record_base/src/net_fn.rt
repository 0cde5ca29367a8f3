//! The numbers of the network functions of the requests that get and set records (IPMI 2.0).

/// The chassis network function.
pub const CHASSIS: u8 = 0x00;

/// The sensor and event network function.
pub const SENSOR_EVENT: u8 = 0x04;

/// The application network function.
pub const APPLICATION: u8 = 0x06;

/// The transport network function.
pub const TRANSPORT: u8 = 0x0C;
