//! What a manager does with each reply, and which frames it ignores.
use super::player::expect_told;

const REPLIES: &str = "
story a plan goes there and back
plan 3 -> Fresh
start -> 2010D02C002705A8 Getting 0
ipmb 2C14C0200027003F140A05505F6E3A -> 2010D02C042605180000004B5A00E8 Setting 0
ipmb 2C14C020042600B6 -> 2010D02C082705A0 Getting 1
ipmb 2C14C0200827003F140A054B5A6E3C -> 2010D02C0C260530000000005C64AD Setting 1
ipmb 2C14C0200C2600AE -> Done
undo -> 2010D02C10260530000000005A6EA1 Undoing 1
ipmb 2C14C020102600AA -> 2010D02C14260518000000505F00CE Undoing 0
ipmb 2C14C020142600A6 -> Undone

story a Get is refused
plan 0 -> Fresh
start -> 2010D02C002705A8 Getting 0
ipmb 2C14C0200027CBEE -> Halted 0 GetRefused CB

story a Get hides what the step sets
# Upper non-critical, which the first step sets, isn't readable.
plan 0 -> Fresh
start -> 2010D02C002705A8 Getting 0
ipmb 2C14C02000270037140A05005F6E92 -> Halted 0 NotRestorable

story a Set is refused
plan 0 -> Fresh
start -> 2010D02C002705A8 Getting 0
ipmb 2C14C0200027003F140A05505F6E3A -> 2010D02C042605180000004B5A00E8 Setting 0
ipmb 2C14C0200426CCEA -> Halted 0 Refused CC

story an undo is refused
plan 0 -> Fresh
start -> 2010D02C002705A8 Getting 0
ipmb 2C14C0200027003F140A05505F6E3A -> 2010D02C042605180000004B5A00E8 Setting 0
ipmb 2C14C020042600B6 -> 2010D02C082705A0 Getting 1
ipmb 2C14C0200827003F140A054B5A6E3C -> 2010D02C0C260530000000005C64AD Setting 1
ipmb 2C14C0200C2600AE -> Done
undo -> 2010D02C10260530000000005A6EA1 Undoing 1
ipmb 2C14C0201026C1E9 -> UndoRefused 1 C1

story a stop in a Get halts before the Set
plan 0 -> Fresh
start -> 2010D02C002705A8 Getting 0
stop -> Getting 0
ipmb 2C14C0200027003F140A05505F6E3A -> Halted 0 Stop

story a stop in a Set halts before the next Get
plan 0 -> Fresh
start -> 2010D02C002705A8 Getting 0
ipmb 2C14C0200027003F140A05505F6E3A -> 2010D02C042605180000004B5A00E8 Setting 0
stop -> Setting 0
ipmb 2C14C020042600B6 -> Halted 1 Stop

story the undo of a halted plan undoes what was done
plan 0 -> Fresh
start -> 2010D02C002705A8 Getting 0
ipmb 2C14C0200027003F140A05505F6E3A -> 2010D02C042605180000004B5A00E8 Setting 0
ipmb 2C14C020042600B6 -> 2010D02C082705A0 Getting 1
stop -> Getting 1
ipmb 2C14C0200827003F140A054B5A6E3C -> Halted 1 Stop
shows -> open none undo 1 next 3 0
undo -> 2010D02C0C260518000000505F00D6 Undoing 0

story what is no reply to the open request is ignored
plan 0 -> Fresh
start -> 2010D02C002705A8 Getting 0
ipmb 2C14C0200027003F140A05505F6E3A -> 2010D02C042605180000004B5A00E8 Setting 0
ipmb 2C14C020042600B6 -> 2010D02C082705A0 Getting 1
shows -> open Ipmb undo 1 next 2 0
# A copy of the reply to request 0.
ipmb 2C14C0200027003F140A05505F6E3A -> Getting 1
# Another command, and another network function.
ipmb 2C14C0200825003F140A054B5A6E3E -> Getting 1
ipmb 2C1CB8200827003F140A054B5A6E3C -> Getting 1
# From another address, and to another.
ipmb 2C14C0300827003F140A054B5A6E2C -> Getting 1
ipmb 2E14BE200827003F140A054B5A6E3C -> Getting 1
# The codes of a busy controller.
ipmb 2C14C0200827C0F1 -> Getting 1
ipmb 2C14C020082704AD -> Getting 1
# A number that is 32 higher.
ipmb 2C14C0208827003F140A054B5A6EBC -> Getting 1
# A request of the same number and command.
ipmb 2C10C4200827003F140A054B5A6E3C -> Getting 1
# A wrong sum, and nothing.
ipmb 2C14C0200827003F140A054B5A6E3D -> Getting 1
ipmb -> Getting 1
ipmb 2C14C0200827003F140A054B5A6E3C -> 2010D02C0C260530000000005C64AD Setting 1

story frames are sent again as often as may be
plan 2 -> Fresh
start -> 2010D02C002705A8 Getting 0
quiet -> 2010D02C002705A8 Getting 0
quiet -> 2010D02C002705A8 Getting 0
quiet -> Unsettled 0
# No reply is taken then.
ipmb 2C14C0200027003F140A05505F6E3A -> Unsettled 0
shows -> open Ipmb undo 0 next 0 0
again -> 2010D02C002705A8 Getting 0
quiet -> 2010D02C002705A8 Getting 0
quiet -> 2010D02C002705A8 Getting 0
quiet -> Unsettled 0
# No reply is taken then.
ipmb 2C14C0200027003F140A05505F6E3A -> Unsettled 0
shows -> open Ipmb undo 0 next 0 0
";

#[test]
fn replies_lead_from_phase_to_phase(rt: HostRuntime) {
    expect_told(&rt, rt.alloc(), REPLIES);
}
