//! Numeric effecters and state effecters, over PLDM.
use super::expect_told;

/// Numeric effecter 4 goes from 0 to 1000, 5 from -2 to 1, 6 is disabled, and 261 goes from -70,000 to -1. State effecter 9 has two fields, and 10 has one
/// and is disabled.
const EFFECTERS: &str = "story a numeric effecter is set within its bounds
board numeric = [
board { id = 4, size = 2, operational = 1, lower = 0, upper = 1000, current = 500 },
board { id = 5, size = 1, operational = 1, lower = -2, upper = 1, current = 0 },
board { id = 6, size = 4, operational = 2, lower = 0, upper = 9, current = 9 },
board { id = 261, size = 5, operational = 1, lower = -70000, upper = -1, current = -1 },
board ]
board state = [
board { id = 9, operational = 1, states = [[1, 2], [1, 2, 3]], current = [1, 1] },
board { id = 10, operational = 2, states = [[1, 2]], current = [2] },
board ]
pldm 02 31 040002E803 -> 00
pldm 02 32 0400 -> 00 0201E803E803
pldm 02 31 040002E903 -> 02
pldm 02 32 0400 -> 00 0201E803E803

story a numeric effecter refuses in order
board numeric = [
board { id = 4, size = 2, operational = 1, lower = 0, upper = 1000, current = 500 },
board { id = 5, size = 1, operational = 1, lower = -2, upper = 1, current = 0 },
board { id = 6, size = 4, operational = 2, lower = 0, upper = 9, current = 9 },
board { id = 261, size = 5, operational = 1, lower = -70000, upper = -1, current = -1 },
board ]
board state = [
board { id = 9, operational = 1, states = [[1, 2], [1, 2, 3]], current = [1, 1] },
board { id = 10, operational = 2, states = [[1, 2]], current = [2] },
board ]
# Under four bytes, before the effecter is looked for; then another size, then a wrong length, then the bounds.
pldm 02 31 090002 -> 03
pldm 02 31 09000201 -> 80
pldm 02 31 04000301 -> 02
pldm 02 31 0400060100 -> 02
pldm 02 31 04000201 -> 03
pldm 02 31 040002010000 -> 03
pldm 02 31 0400020100000000 -> 03
pldm 02 31 040002FFFF -> 02
# Disabled.
pldm 02 31 06000409000000 -> 02
pldm 02 31 0600040900 -> 03
# -2 to 1: -3 and 2 are beyond.
pldm 02 31 050001FE -> 00
pldm 02 31 05000101 -> 00
pldm 02 31 050001FD -> 02
pldm 02 31 05000102 -> 02
# -70,000 to -1: -70,001 and 0 are beyond.
pldm 02 31 05010590EEFEFF -> 00
pldm 02 31 0501058FEEFEFF -> 02
pldm 02 31 05010500000000 -> 02
pldm 02 32 04 -> 03
pldm 02 32 040000 -> 03
pldm 02 32 0401 -> 80
pldm 02 33 0400 -> 05

story a field of a state effecter is set
board numeric = [
board { id = 4, size = 2, operational = 1, lower = 0, upper = 1000, current = 500 },
board { id = 5, size = 1, operational = 1, lower = -2, upper = 1, current = 0 },
board { id = 6, size = 4, operational = 2, lower = 0, upper = 9, current = 9 },
board { id = 261, size = 5, operational = 1, lower = -70000, upper = -1, current = -1 },
board ]
board state = [
board { id = 9, operational = 1, states = [[1, 2], [1, 2, 3]], current = [1, 1] },
board { id = 10, operational = 2, states = [[1, 2]], current = [2] },
board ]
pldm 02 39 09000201020000 -> 00
pldm 02 3A 0900 -> 00 02010202010101
pldm 02 39 09000200000104 -> 81
pldm 02 3A 0900 -> 00 02010202010101

story a state effecter refuses in order
board numeric = [
board { id = 4, size = 2, operational = 1, lower = 0, upper = 1000, current = 500 },
board { id = 5, size = 1, operational = 1, lower = -2, upper = 1, current = 0 },
board { id = 6, size = 4, operational = 2, lower = 0, upper = 9, current = 9 },
board { id = 261, size = 5, operational = 1, lower = -70000, upper = -1, current = -1 },
board ]
board state = [
board { id = 9, operational = 1, states = [[1, 2], [1, 2, 3]], current = [1, 1] },
board { id = 10, operational = 2, states = [[1, 2]], current = [2] },
board ]
# Not as many bytes as the count tells, before the effecter is looked for.
pldm 02 39 -> 03
pldm 02 39 0800 -> 03
pldm 02 39 080001 -> 03
pldm 02 39 090002010200 -> 03
pldm 02 39 0900020102000000 -> 03
pldm 02 39 0800010201 -> 80
pldm 02 39 0901010101 -> 80
# Another number of fields: the effecter has two.
pldm 02 39 090000 -> 02
pldm 02 39 0900010101 -> 02
pldm 02 39 090003010101010101 -> 02
# Neither set nor left, in the second field, before the state of the first.
pldm 02 39 09000200000201 -> 02
pldm 02 39 09000201040201 -> 02
pldm 02 39 09000201030103 -> 81
# The state of a field that is left isn't looked at.
pldm 02 39 09000200FF0103 -> 00
# Disabled: before the state, and only where a field is set.
pldm 02 39 0A00010101 -> 02
pldm 02 39 0A00010107 -> 02
pldm 02 39 0A00010007 -> 00
pldm 02 3A 09 -> 03
pldm 02 3A 090000 -> 03
pldm 02 3A 0901 -> 80

story more fields than an effecter can have are refused
board numeric = [
board { id = 4, size = 2, operational = 1, lower = 0, upper = 1000, current = 500 },
board { id = 5, size = 1, operational = 1, lower = -2, upper = 1, current = 0 },
board { id = 6, size = 4, operational = 2, lower = 0, upper = 9, current = 9 },
board { id = 261, size = 5, operational = 1, lower = -70000, upper = -1, current = -1 },
board ]
board state = [
board { id = 9, operational = 1, states = [[1, 2], [1, 2, 3]], current = [1, 1] },
board { id = 10, operational = 2, states = [[1, 2]], current = [2] },
board ]
pldm 02 39 09007C 00*248 -> 02
pldm 02 39 08007C 00*248 -> 80

story a disabled state effecter shows that it is
board numeric = [
board { id = 4, size = 2, operational = 1, lower = 0, upper = 1000, current = 500 },
board { id = 5, size = 1, operational = 1, lower = -2, upper = 1, current = 0 },
board { id = 6, size = 4, operational = 2, lower = 0, upper = 9, current = 9 },
board { id = 261, size = 5, operational = 1, lower = -70000, upper = -1, current = -1 },
board ]
board state = [
board { id = 9, operational = 1, states = [[1, 2], [1, 2, 3]], current = [1, 1] },
board { id = 10, operational = 2, states = [[1, 2]], current = [2] },
board ]
pldm 02 3A 0A00 -> 00 01020202

story changes of effecters are undone
board numeric = [
board { id = 4, size = 2, operational = 1, lower = 0, upper = 1000, current = 500 },
board { id = 5, size = 1, operational = 1, lower = -2, upper = 1, current = 0 },
board { id = 6, size = 4, operational = 2, lower = 0, upper = 9, current = 9 },
board { id = 261, size = 5, operational = 1, lower = -70000, upper = -1, current = -1 },
board ]
board state = [
board { id = 9, operational = 1, states = [[1, 2], [1, 2, 3]], current = [1, 1] },
board { id = 10, operational = 2, states = [[1, 2]], current = [2] },
board ]
# The lower bound becomes -65,536.
change pldm 02 31 0501 05 0000FFFF : 0501 FFFFFFFF FFFFFFFF -> 0501 0000FFFF 0000FFFF : 0501 05 FFFFFFFF
# The second field, and the first is left.
change pldm 02 39 0900 02 0000 0103 : 02 010101 010101 -> 02 010101 010303 : 0900 02 0000 0101

story effecters are undone from the reply alone
# The size and the present value are the reply's, not the operation's and not the pending value.
undo pldm 02 31 0400 02 0100 : 00010708 -> 04000008
# Disabled, an update pending, a size that isn't there, and lengths of no reply.
undo pldm 02 31 0400 02 0100 : 0202F401F401 -> none
undo pldm 02 31 0400 02 0100 : 0200F401F401 -> none
undo pldm 02 31 0400 02 0100 : 0601F401F401F401F401 -> none
undo pldm 02 31 0400 02 0100 : 0201F401 -> none
undo pldm 02 31 0400 02 0100 : 0201F401F40100 -> none
undo pldm 02 31 0400 02 0100 : -> none
# The second field is left, with a state that is ignored. First the present state, which isn't the pending one; a field that is left may be
# disabled. Then fewer fields, all of which are left but the first, and more.
undo pldm 02 39 0900 02 0102 0007 : 02 010506 020303 -> 0900 02 0106 0000
undo pldm 02 39 0900 02 0102 0007 : 01 010303 -> 0900 02 0103 0000
undo pldm 02 39 0900 02 0102 0007 : 03 010101 010202 020404 -> 0900 02 0101 0000
# Disabled, an update pending, a count of no effecter, and lengths of no reply.
undo pldm 02 39 0900 02 0102 0007 : 02 020101 010101 -> none
undo pldm 02 39 0900 02 0102 0007 : 02 000101 010101 -> none
undo pldm 02 39 0900 02 0102 0007 : 00 -> none
undo pldm 02 39 0900 02 0102 0007 : 02 010101 0101 -> none
undo pldm 02 39 0900 02 0102 0007 : 02 010101 010101 01 -> none
undo pldm 02 39 0900 02 0102 0007 : -> none
# A field to be set that the reply doesn't show.
undo pldm 02 39 0900 02 0000 0101 : 01010101 -> none
";

#[test]
fn effecters_are_set_refused_in_order_and_undone(rt: HostRuntime) {
    expect_told(&rt, rt.alloc(), EFFECTERS);
}
