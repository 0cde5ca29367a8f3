//! What a packet does to the places.
ghost use Rattle.std.specs.Prelude.{◌≡◌, ◌<◌, ◌≤◌, Some, None, true, false, IfSome, length};
ghost use Rattle.mctp_net.specs.Assembly.{name_of, open_beside, drop_cause, after_where, closed, ended, kept_with};
ghost use Rattle.mctp_net.specs.Places.{assemblies_in, AreSoundPlaces, IsPlaceOf, IsRoomFor, open_in, under_in};
ghost use Rattle.mctp_net.specs.Sound.{FitsAssembly};
ghost use Rattle.mctp_net.specs.Sizes.{unit_size, most_assemblies};

use crate::packet::UNIT_SIZE;
use crate::place::{MOST_ASSEMBLIES, Place, place_of};
use crate::{DropCause, Envelope, Packet};

/// The first cause to drop the packet, whose name has this place.
pub(crate) fn drop_cause(
    own: u8,
    places: &[Place],
    place: Option<usize>,
    packet: &Packet<'_>,
) -> Option<DropCause>
    requires sound { AreSoundPlaces places.now }
    requires place { IsPlaceOf (Some (name_of packet.now.envelope)) places.now place }
    ensures { result ≡ drop_cause own (assemblies_in places.now None) packet.now }
{
    let Envelope {
        destination_eid,
        ..
    } = packet.envelope;
    if destination_eid != own && destination_eid != 0x00 {
        return Some(DropCause::NotOurs);
    }
    let taken = taken_at(places, place, packet);
    if !packet.start && taken == 0 {
        return Some(DropCause::NoStart);
    }
    let number = if packet.start { 0 } else { taken };
    if number >= 4 {
        return Some(DropCause::TooLong);
    }
    if usize::from(packet.sequence.number()) != number {
        return Some(DropCause::OutOfSequence);
    }
    if !packet.end && packet.payload.as_slice().len() != UNIT_SIZE {
        return Some(DropCause::UnitSize);
    }
    if packet.start && !packet.end && used_beside(places, place, packet) >= MOST_ASSEMBLIES {
        return Some(DropCause::NoSlot);
    }
    None
}

/// How many packets wait under the packet's name.
fn taken_at(places: &[Place], place: Option<usize>, packet: &Packet<'_>) -> usize
    requires sound { AreSoundPlaces places.now }
    requires place { IsPlaceOf (Some (name_of packet.now.envelope)) places.now place }
    ensures { result ≡ length (under_in places.now (name_of packet.now.envelope)) }
{
    match place {
        Some(place) => places[place].count(),
        None => 0,
    }
}

/// How many places other names have.
fn used_beside(places: &[Place], place: Option<usize>, packet: &Packet<'_>) -> usize
    requires sound { AreSoundPlaces places.now }
    requires place { IsPlaceOf (Some (name_of packet.now.envelope)) places.now place }
    ensures { result ≡ open_beside (name_of packet.now.envelope) (assemblies_in places.now None) }
{
    match place {
        Some(_) => used_count(places) - 1,
        None => used_count(places),
    }
}

/// How many places are used.
fn used_count(places: &[Place]) -> usize
    ensures { result ≡ open_in places.now }
{
    places.iter().filter(|place| place.is_used()).count()
}

/// Drops the packet for this cause: most close the assembly of its name.
pub(crate) fn drop_for(
    cause: DropCause,
    places: &mut Vec<Place>,
    place: Option<usize>,
    packet: &Packet<'_>,
)
    requires sound { AreSoundPlaces places.old.items }
    requires place { IsPlaceOf (Some (name_of packet.now.envelope)) places.old.items place }
    ensures sound { AreSoundPlaces places.new.items }
    ensures after { assemblies_in places.new.items None
        ≡ after_where (Some cause) packet.now (assemblies_in places.old.items None) }
{
    match cause {
        DropCause::NotOurs | DropCause::NoStart => {}
        _ => let_go(places, place, packet),
    }
}

/// Closes the assembly of the packet's name.
fn let_go(places: &mut Vec<Place>, place: Option<usize>, packet: &Packet<'_>)
    requires sound { AreSoundPlaces places.old.items }
    requires place { IsPlaceOf (Some (name_of packet.now.envelope)) places.old.items place }
    ensures sound { AreSoundPlaces places.new.items }
    ensures after { assemblies_in places.new.items None
        ≡ closed packet.now (assemblies_in places.old.items None) }
{
    match place {
        Some(place) => places[place].close(),
        None => {}
    }
}

/// Keeps a packet that fits and is no end.
pub(crate) fn keep(places: &mut Vec<Place>, place: Option<usize>, packet: &Packet<'_>)
    requires sound { AreSoundPlaces places.old.items }
    requires place { IsPlaceOf (Some (name_of packet.now.envelope)) places.old.items place }
    requires fits { FitsAssembly (assemblies_in places.old.items None) packet.now }
    requires more { packet.now.end ≡ false }
    ensures sound { AreSoundPlaces places.new.items }
    ensures after { assemblies_in places.new.items None
        ≡ kept_with packet.now (assemblies_in places.old.items None) }
{
    if packet.start {
        begin(places, place, packet);
    } else {
        append(places, place, packet);
    }
}

/// Keeps a start that fits and is no end.
fn begin(places: &mut Vec<Place>, place: Option<usize>, packet: &Packet<'_>)
    requires sound { AreSoundPlaces places.old.items }
    requires place { IsPlaceOf (Some (name_of packet.now.envelope)) places.old.items place }
    requires fits { FitsAssembly (assemblies_in places.old.items None) packet.now }
    requires more { packet.now.end ≡ false }
    requires start { packet.now.start ≡ true }
    ensures sound { AreSoundPlaces places.new.items }
    ensures after { assemblies_in places.new.items None
        ≡ kept_with packet.now (assemblies_in places.old.items None) }
{
    let place = room_for(places.as_slice(), place, packet);
    places[place].begin(packet.envelope.name(), packet.payload.as_slice());
}

/// The place of the packet's name, or a free one where it has none.
fn room_for(places: &[Place], place: Option<usize>, packet: &Packet<'_>) -> usize
    requires sound { AreSoundPlaces places.now }
    requires place { IsPlaceOf (Some (name_of packet.now.envelope)) places.now place }
    requires room { open_beside (name_of packet.now.envelope) (assemblies_in places.now None)
        < most_assemblies }
    ensures { IsRoomFor (name_of packet.now.envelope) places.now result }
{
    match place {
        Some(place) => place,
        None => place_of(places, None).unwrap(),
    }
}

/// Keeps a packet that fits and is neither start nor end.
fn append(places: &mut Vec<Place>, place: Option<usize>, packet: &Packet<'_>)
    requires sound { AreSoundPlaces places.old.items }
    requires place { IsPlaceOf (Some (name_of packet.now.envelope)) places.old.items place }
    requires fits { FitsAssembly (assemblies_in places.old.items None) packet.now }
    requires more { packet.now.end ≡ false }
    requires start { packet.now.start ≡ false }
    ensures sound { AreSoundPlaces places.new.items }
    ensures after { assemblies_in places.new.items None
        ≡ kept_with packet.now (assemblies_in places.old.items None) }
{
    let place = place.unwrap();
    places[place].append(packet.payload.as_slice());
}

/// Ends a message with a packet that fits, and closes its assembly: gives the place where the message lies, if it isn't in
/// the packet.
pub(crate) fn end(
    places: &mut Vec<Place>,
    place: Option<usize>,
    packet: &Packet<'_>,
) -> Option<usize>
    requires sound { AreSoundPlaces places.old.items }
    requires place { IsPlaceOf (Some (name_of packet.now.envelope)) places.old.items place }
    requires fits { FitsAssembly (assemblies_in places.old.items None) packet.now }
    ensures sound { AreSoundPlaces places.new.items }
    ensures after { assemblies_in places.new.items result
        ≡ ended packet.now (assemblies_in places.old.items None) }
    ensures made { IfSome result (λ i. i < most_assemblies) }
    ensures some { 0 < length packet.now.payload }
    ensures most { length packet.now.payload ≤ unit_size }
{
    let payload = packet.payload.as_slice();
    if packet.start {
        let_go(places, place, packet);
        return None;
    }
    let place = place.unwrap();
    places[place].finish(payload);
    Some(place)
}
