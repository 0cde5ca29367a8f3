//! Packets to messages.
ghost use Rattle.std.specs.Prelude.{◌≡◌, ◌<◌, ◌≤◌, ◌↔◌, length, IfOk};
ghost use Rattle.two_wire.specs.Sizes.{most_message_bytes};
ghost use Rattle.mctp_net.specs.declared.message.Message.{Message as AnyMessage};
ghost use Rattle.mctp_net.specs.declared.taken.Taken.TheVariants.{Whole as IsWhole, Waiting as IsWaiting};
ghost use Rattle.mctp_net.specs.Assembly.{nothing, drop_cause, after, message_of, MakesWhole, IsPieceTaken, dropped_for};
ghost use Rattle.mctp_net.specs.Places.{seen};

use crate::place::{Place, close_all, free_places, place_of};
use crate::placing::{drop_cause, drop_for, end, keep};
use crate::{Message, Packet, SomeData, Taken};
use std::alloc::{AllocError, Global};
use std::marker::Model;

/// At most eight messages that are being put together, each from at most four packets. `seen` shows the packets that
/// wait under each name.
pub struct Assembler {
    places: Vec<Place>,
    /// Where the message lies that the last packet ended, if several packets made it.
    made: Option<usize>,
}

// Written out: the crates above would prove a derived one anew.
impl Drop for Assembler {
    fn drop(self) {
        let Assembler { places, made: _ } = self;
        drop(places);
    }
}

impl Model for Assembler {
    ghost use Rattle.std.specs.Prelude.{◌<◌, IfSome};
    ghost use Rattle.mctp_net.specs.Places.{KeptAssembly, AreSoundPlaces};
    ghost use Rattle.mctp_net.specs.Sizes.{most_assemblies};

    ghost Value = { KeptAssembly };

    ghost view = { λ a. record { places = a.places.items; made = a.made } };

    ghost invariant = { λ a. AreSoundPlaces a.places.items
        × IfSome a.made (λ i. i < most_assemblies) };
}

impl Assembler {
    /// Nothing is open yet. All memory is taken here.
    pub fn new(alloc: Global) -> Result<Self, AllocError>
        ensures { IfOk result (λ a. seen a ≡ nothing) }
    {
        let places = free_places(alloc)?;
        Ok(Assembler { places, made: None })
    }

    /// Takes a packet, at the endpoint with this identifier.
    pub fn take(&mut self, own: u8, packet: &Packet<'_>) -> Taken
        // It's dropped for the first cause that holds.
        ensures dropped { dropped_for result ≡ drop_cause own (seen self.old) packet.now }
        // It's whole exactly where the packet ends a cut of a message, which is then shown.
        ensures whole { (m : AnyMessage) →
            ((result ≡ IsWhole) × (m ≡ message_of (seen self.new) packet.now))
            ↔ MakesWhole own (seen self.old) packet.now m }
        ensures some { result ≡ IsWhole → 0 < length (message_of (seen self.new) packet.now).body }
        // It's waiting exactly where it's taken and is no end.
        ensures waiting { (result ≡ IsWaiting) ↔ IsPieceTaken own (seen self.old) packet.now }
        // Packets that wait under other names stay.
        ensures after { seen self.new ≡ after own (seen self.old) packet.now }
    {
        let place = place_of(self.places.as_slice(), Some(packet.envelope.name()));
        self.made = None;
        match drop_cause(own, self.places.as_slice(), place, packet) {
            Some(cause) => {
                drop_for(cause, &mut self.places, place, packet);
                Taken::Dropped(cause)
            }
            None if packet.end => {
                self.made = end(&mut self.places, place, packet);
                Taken::Whole
            }
            None => {
                keep(&mut self.places, place, packet);
                Taken::Waiting
            }
        }
    }

    /// The message that this packet ended, which is the last that was taken.
    pub fn message<'a>(&'a self, packet: &'a Packet<'_>) -> Message<'a>
        requires { 0 < length (message_of (seen self.now) packet.now).body }
        ensures { result ≡ message_of (seen self.now) packet.now }
    {
        Message {
            envelope: packet.envelope,
            body: SomeData::new(self.body(packet)),
        }
    }

    /// The bytes of that message.
    pub fn body<'a>(&'a self, packet: &'a Packet<'_>) -> &'a [u8]
        ensures value { result.now ≡ (message_of (seen self.now) packet.now).body }
        ensures fits { length result.now ≤ most_message_bytes }
    {
        if packet.start {
            packet.payload.as_slice()
        } else {
            self.made()
        }
    }

    /// Drops all open assemblies.
    pub fn clear(&mut self)
        ensures { seen self.new ≡ nothing }
    {
        self.made = None;
        close_all(&mut self.places);
    }

    // The bytes of the message that several packets made.
    fn made(&self) -> &[u8]
        ensures value { result.now ≡ (seen self.now).made }
        ensures fits { length result.now ≤ most_message_bytes }
    {
        match self.made {
            Some(place) => self.places[place].bytes.as_slice(),
            None => &[],
        }
    }
}
