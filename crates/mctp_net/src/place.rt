//! Where the bytes of a message that is put together lie.
ghost use Rattle.std.specs.Prelude.{◌≡◌, ◌+◌, ◌/◌, ◌≤◌, ◌++◌, Some, None, length, replicate, All, IfOk};
ghost use Rattle.two_wire.specs.Sizes.{most_message_bytes};
ghost use Rattle.mctp_net.specs.Places.{free_place, is_at as at_name, is_used as is_used_place, IsPlaceOf};

use crate::Name;
use crate::packet::UNIT_SIZE;
use std::alloc::{AllocError, Global};
use two_wire::Bytes;
use two_wire::size::MOST_MESSAGE_BYTES;

/// How many messages can be put together at once.
pub(crate) const MOST_ASSEMBLIES: usize = 8;

/// Room for the message of one name: each packet that waits fills a unit, so the bytes tell how many there are. A place
/// without a name is free.
#[derive(Drop)]
pub(crate) struct Place {
    pub(crate) name: Option<Name>,
    pub(crate) bytes: Bytes<{ MOST_MESSAGE_BYTES }>,
}

impl Place {
    /// A free place.
    pub(crate) fn free() -> Place
        ensures { result ≡ free_place }
    {
        Place {
            name: None,
            bytes: Bytes::new(),
        }
    }

    /// How many packets wait here.
    pub(crate) fn count(&self) -> usize
        ensures value { result ≡ length self.now.bytes / UNIT_SIZE }
        ensures fits { length self.now.bytes ≤ most_message_bytes }
    {
        self.bytes.len() / UNIT_SIZE
    }

    /// Begins a message with its first bytes, whatever was here.
    pub(crate) fn begin(&mut self, name: Name, payload: &[u8])
        requires { length payload.now ≤ most_message_bytes }
        ensures { self.new ≡ record { name = Some name; bytes = payload.now } }
    {
        self.name = Some(name);
        self.bytes.replace(payload);
    }

    /// Appends what a packet carries.
    pub(crate) fn append(&mut self, payload: &[u8])
        requires { length self.old.bytes + length payload.now ≤ most_message_bytes }
        ensures { self.new
            ≡ record { name = self.old.name; bytes = self.old.bytes ++ payload.now } }
    {
        self.bytes.extend_from_slice(payload);
    }

    /// Appends what the last packet of a message carries, and is free: the bytes stay until the next message.
    pub(crate) fn finish(&mut self, payload: &[u8])
        requires { length self.old.bytes + length payload.now ≤ most_message_bytes }
        ensures { self.new ≡ record { name = None; bytes = self.old.bytes ++ payload.now } }
    {
        self.append(payload);
        self.close();
    }

    /// Whether a message is here.
    pub(crate) fn is_used(&self) -> bool
        ensures { result ≡ is_used_place self.now }
    {
        self.name.is_some()
    }

    /// Lets go of what waits here.
    pub(crate) fn close(&mut self)
        ensures { self.new ≡ record { name = None; bytes = self.old.bytes } }
    {
        self.name = None;
    }
}

/// Free places, as many as there can be messages.
pub(crate) fn free_places(alloc: Global) -> Result<Vec<Place>, AllocError>
    ensures { IfOk result (λ places. places.items ≡ replicate MOST_ASSEMBLIES free_place) }
{
    let mut places = Vec::with_capacity(alloc, MOST_ASSEMBLIES)?;
    for _ in 0..MOST_ASSEMBLIES {
        places.push_reserved(Place::free());
    }
    Ok(places)
}

/// Lets go of all that waits.
pub(crate) fn close_all(places: &mut Vec<Place>)
    requires { All (λ s. length s.bytes ≤ most_message_bytes) places.old.items }
    ensures length { length places.new.items ≡ length places.old.items }
    ensures free { All (λ s. s.name ≡ None) places.new.items }
    ensures fits { All (λ s. length s.bytes ≤ most_message_bytes) places.new.items }
{
    for place in 0..places.len() {
        places[place].close();
    }
}

/// The first place of this name, or the first free one.
pub(crate) fn place_of(places: &[Place], name: Option<Name>) -> Option<usize>
    ensures { IsPlaceOf name places.now result }
{
    for number in 0..places.len() {
        if is_at(&places[number].name, &name) {
            return Some(number);
        }
    }
    None
}

/// Whether both are one name, or none.
fn is_at(one: &Option<Name>, other: &Option<Name>) -> bool
    ensures { result ≡ at_name one.now other.now }
{
    match (one, other) {
        (Some(one), Some(other)) => one == other,
        (None, None) => true,
        _ => false,
    }
}
