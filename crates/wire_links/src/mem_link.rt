//! A link in memory.
ghost use Rattle.std.specs.Prelude.{◌≡◌, ◌≤◌, ◌++◌, ◌∷◌, [], All, IfOk, IfErr, length, take, vec_capacity};
ghost use Rattle.std.specs.Vec.Iter.{into_iter_items};
ghost use Rattle.wire_links.specs.Counted.{none_counted};
ghost use Rattle.wire_links.specs.Scripts.{most_kept, lists_in, fits, head_of};
ghost use Rattle.wire_links.specs.declared.mem_link.MemFault.TheVariants.{TooLong};

use crate::link::{Counts, Heard, Link, LinkFault};
use std::alloc::Global;
use std::vec::IntoIter;
use two_wire::Frame;
use two_wire::size::MOST_FRAME_BYTES;

/// The most frames that a link in memory keeps of those that are sent.
pub const MOST_KEPT: usize = 256;

/// Why no link is made.
#[derive(Clone, Copy, Debug, PartialEq, Eq)]
pub enum MemFault {
    Memory,
    /// A frame of the script is longer than any on either bus.
    TooLong,
}

/// A link that hears the frames of a script, and then no more. What it sends goes nowhere, but the first frames of it can be read.
#[derive(Drop)]
pub struct MemLink {
    /// What is still to be heard. A frame of no bytes is none.
    script: IntoIter<Frame, Global>,
    sent: Vec<Frame>,
    counts: Counts,
    ghost few: { length sent.items ≤ most_kept },
    ghost roomy: { most_kept ≤ vec_capacity sent },
}

/// The script's frames.
fn read_script(alloc: Global, script: &[&[u8]]) -> Result<Vec<Frame>, MemFault>
    ensures script { IfOk result (λ frames. frames.items ≡ lists_in script.now) }
    ensures fit { IfOk result (λ frames. All fits frames.items) }
    ensures too_long { IfErr result (λ fault. fault ≡ TooLong
        → ¬ All fits (lists_in script.now)) }
{
    let Ok(mut frames) = Vec::with_capacity(alloc, script.len()) else {
        return Err(MemFault::Memory);
    };
    for bytes in script {
        if bytes.len() > MOST_FRAME_BYTES {
            return Err(MemFault::TooLong);
        }
        frames.push_reserved(Frame::from_slice(bytes));
    }
    Ok(frames)
}

impl MemLink {
    /// A link that hears this script. A script is a list of byte lists, and an empty one of them is a call that hears nothing. The room
    /// for what it sends is taken here.
    pub fn new(alloc: Global, script: &[&[u8]]) -> Result<MemLink, MemFault>
        ensures script { IfOk result (λ link.
            into_iter_items link.script ≡ lists_in script.now) }
        ensures sent { IfOk result (λ link. link.sent.items ≡ []) }
        ensures counts { IfOk result (λ link. link.counts ≡ none_counted) }
        ensures fit { IfOk result (λ link. All fits (into_iter_items link.script)) }
        ensures too_long { IfErr result (λ fault. fault ≡ TooLong
            → ¬ All fits (lists_in script.now)) }
    {
        let script = read_script(alloc, script)?;
        let Ok(sent) = Vec::with_capacity(alloc, MOST_KEPT) else {
            return Err(MemFault::Memory);
        };
        Ok(MemLink {
            script: script.into_iter(),
            sent,
            counts: Counts::NONE,
        })
    }

    /// The first frames that were sent, at most `MOST_KEPT`.
    pub fn sent(&self) -> &[Frame]
        ensures { result.now ≡ self.now.sent.items }
    {
        self.sent.as_slice()
    }

    /// Keeps a frame that is sent, where there is room.
    fn keep(&mut self, frame: &Frame)
        ensures sent { self.new.sent.items
            ≡ take most_kept (self.old.sent.items ++ frame.now ∷ []) }
        ensures script { into_iter_items self.new.script ≡ into_iter_items self.old.script }
        ensures counts { self.new.counts ≡ self.old.counts }
    {
        if self.sent.len() < MOST_KEPT {
            self.sent.push_reserved(frame.copy());
        }
    }
}

/// What is heard in bytes of a script.
fn hear(bytes: Frame) -> Heard
    ensures { result ≡ head_of (bytes ∷ []) }
{
    if bytes.is_empty() {
        Heard::Quiet
    } else {
        Heard::Frame(bytes)
    }
}

impl Link for MemLink {
    ghost use Rattle.wire_links.specs.Scripts.{HearsNext, KeepsFrame};

    ghost counts_of = { λ link. link.counts };

    ghost gives = { λ link answer after.
        HearsNext (into_iter_items link.script) answer (into_iter_items after.script)
        × (after.sent.items ≡ link.sent.items) };

    ghost takes = { λ link frame answer after.
        KeepsFrame link.sent.items frame answer after.sent.items
        × (into_iter_items after.script ≡ into_iter_items link.script) };

    /// The script's next frame. It never fails.
    fn next(&mut self) -> Result<Heard, LinkFault> {
        let heard = match self.script.next() {
            Some(bytes) => hear(bytes),
            None => Heard::Quiet,
        };
        let answer = Ok(heard);
        self.counts.count_next(&answer);
        answer
    }

    /// Keeps the frame, where there is room. It never fails.
    fn send(&mut self, frame: &Frame) -> Result<(), LinkFault> {
        self.keep(frame);
        let answer = Ok(());
        self.counts.count_send(&answer);
        answer
    }

    fn counts(&self) -> Counts {
        self.counts
    }
}
