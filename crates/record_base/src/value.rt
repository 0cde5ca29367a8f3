//! The bytes of values, and the data of requests and replies.
use two_wire::Bytes;

/// How many bytes the whole data of a Get reply or of a Set has at most. Those of an attribute may go in parts.
pub const DATA_CAPACITY: usize = 1040;

/// For how many bytes a value has room.
pub const VALUE_CAPACITY: usize = DATA_CAPACITY;

/// The value of a record.
pub type Value = Bytes<{ VALUE_CAPACITY }>;

/// The whole data of a Get reply or of a Set.
pub type RecordData = Bytes<{ DATA_CAPACITY }>;
