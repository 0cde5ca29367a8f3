//! What lines come to, and the kinds of lines.
use super::control::control;
use super::messages::{clear, come_back, split_into_frames, take};
use super::player::{bytes_of, parted, push_words};
use super::pldm::{Parts, part_of};
use super::readers::{are_same, changed, cuts, read};
use mctp_net::{Assembler, Endpoint, EndpointId};
use std::alloc::Global;
use stories::{NoOutcome, NoScene, Scene};

/// What lines come to.
#[derive(Drop)]
pub struct Wire {
    /// Endpoint 0Ah.
    pub endpoint: Endpoint,
    pub assembler: Assembler,
    /// The identifier of the assembler's endpoint.
    pub own: u8,
    /// The bytes of the table whose parts are asked for.
    pub table: Vec<u8>,
}

impl Scene for Wire {
    fn open(alloc: Global, _lines: &str) -> Result<Wire, NoScene> {
        Ok(Wire {
            endpoint: Endpoint::new(EndpointId::new(0x0A).unwrap()),
            assembler: Assembler::new(alloc)?,
            own: 0x0A,
            table: Vec::new(alloc),
        })
    }

    /// Appends what comes of the words. They are those of one of these lines, where `00*3` is three times `00`:
    ///
    /// - `sum 20 18 -> C8`, `pec ..`, `crc32 ..`: the check byte, the packet error code or the CRC-32 of the bytes;
    /// - `ipmb 20 18 C8 2C 00 01 D3 -> request ..`, `packet ..`, `pldm ..`, `reply ..`: what the bytes are read as, or their first fault; behind
    ///   it `written ..` where what was read is written otherwise;
    /// - `cuts ipmb 20 18 -> Short*2`: the same of the first 0, 1, .. bytes, but for all of them;
    /// - `changed ipmb 20 18 -> 0 read`: with each other byte at each place in turn, how many are read without a fault;
    /// - `same ipmb 20 18 / 20 18 -> yes`: whether both are requests and the same one;
    /// - `control 00 80 02 -> 00 00 02 00 0A 00 00 at 0A`: the endpoint's reply to a control request, or `nothing`, and its identifier then;
    /// - `split 65 -> 20 0F / 20 0F`: the frames of a message of so many bytes;
    /// - `back 65 -> Waiting Whole same`: what the assembler does with each of them, and whether the message is the same then;
    /// - `take 0A 08 8B 00*64 -> Waiting`: what the assembler does with the packet to an endpoint from another one, with these flags and
    ///   this payload; behind `Whole` the message;
    /// - `own 0B`: the assembler's endpoint gets this identifier; `clear`: the assembler is cleared;
    /// - `table 00 01`: the table; `part 01 0 -> flag 05 next 0 bytes 00 01`: the part that an operation and a handle ask for, or the code;
    ///   `entry 01 0`: the same where these bytes are an entry.
    fn come(&mut self, alloc: Global, words: &str, text: &mut String) -> Result<(), NoOutcome> {
        let (kind, words) = parted(words);
        match kind {
            "cuts" => cuts(alloc, words, text),
            "changed" => changed(alloc, words, text),
            "same" => are_same(alloc, words, text),
            _ => self.come_to_table(alloc, (kind, words), text),
        }
    }

    fn is_told(_alloc: Global, came: &str, told: &str) -> Result<bool, NoOutcome> {
        Ok(came == told)
    }
}

impl Wire {
    /// Lines about the table; all others go on.
    fn come_to_table(
        &mut self,
        alloc: Global,
        (kind, words): (&str, &str),
        text: &mut String,
    ) -> Result<(), NoOutcome> {
        match kind {
            "table" => {
                self.table.clear();
                push_words(&mut self.table, words)
            }
            "part" => part_of(Parts::OfTable, self.table.as_slice(), words, text),
            "entry" => part_of(Parts::OfEntry, self.table.as_slice(), words, text),
            _ => self.come_to_assembler(alloc, (kind, words), text),
        }
    }

    /// Lines about the assembler without bytes; all others go on.
    fn come_to_assembler(
        &mut self,
        alloc: Global,
        (kind, words): (&str, &str),
        text: &mut String,
    ) -> Result<(), NoOutcome> {
        match kind {
            "split" => return split_into_frames(words, text),
            "back" => return come_back(&mut self.assembler, words, text),
            "own" => self.own = u8::from_str_radix(words, 16)?,
            "clear" => clear(&mut self.assembler),
            _ => return self.come_with_bytes(alloc, (kind, words), text),
        }
        Ok(())
    }

    /// Lines of bytes.
    fn come_with_bytes(
        &mut self,
        alloc: Global,
        (kind, words): (&str, &str),
        text: &mut String,
    ) -> Result<(), NoOutcome> {
        let bytes = bytes_of(alloc, words)?;
        match kind {
            "control" => control(&mut self.endpoint, bytes.as_slice(), text),
            "take" => take(&mut self.assembler, self.own, bytes.as_slice(), text),
            _ => read(kind, bytes.as_slice(), text),
        }
    }
}
