//! The words of the command line that name a bus and a frame.
ghost use Rattle.std.specs.Prelude.{◌≡◌, ◌⊎◌, ◌↔◌, ℕ, List, IfOk, IfErr, Ok, Err};
ghost use Rattle.std.specs.Option.{option_copied};
ghost use Rattle.two_wire.specs.declared.Bus.{Bus as AnyBus};
ghost use Rattle.bmc_lab.specs.Asked.{MeansBus, AsksForBytes};

use app_base::Status;
use hex::FromHexError;
use std::alloc::Global;
use two_wire::Bus;

/// The bytes of a frame, and the bus that they are heard on.
#[derive(Drop)]
pub struct AskedFrame {
    pub bus: Bus,
    pub bytes: Vec<u8>,
}

/// The bus that the word names.
pub fn bus_named(word: Option<&str>) -> Result<Bus, Status>
    ensures bus { (bus : AnyBus) → (result ≡ Ok bus) ↔ MeansBus (option_copied word.entry) bus }
    ensures refused { IfErr result (λ status. status ≡ Status.RefusedWords) }
{
    match word {
        None => Ok(Bus::Ipmb),
        Some(name) => Bus::named(name).ok_or(Status::RefusedWords),
    }
}

/// The frame that the words BUS and HEX name, or `RefusedWords` where they name none. `word` is `None` where BUS is left out.
pub fn asked_frame(alloc: Global, word: Option<&str>, digits: &str) -> Result<AskedFrame, Status>
    ensures asked { IfOk result
        (λ frame. AsksForBytes (option_copied word.entry) digits.now frame.bus frame.bytes.items) }
    ensures refused { result ≡ Err Status.RefusedWords → (b : AnyBus) (bytes : List ℕ)
        → ¬ AsksForBytes (option_copied word.entry) digits.now b bytes }
    ensures faults { IfErr result
        (λ status. (status ≡ Status.RefusedWords) ⊎ (status ≡ Status.Memory)) }
{
    let bus = bus_named(word)?;
    match hex::decode(alloc, digits) {
        Ok(bytes) if bytes.is_empty() => Err(Status::RefusedWords),
        Ok(bytes) => Ok(AskedFrame { bus, bytes }),
        Err(FromHexError::OutOfMemory) => Err(Status::Memory),
        Err(_) => Err(Status::RefusedWords),
    }
}
