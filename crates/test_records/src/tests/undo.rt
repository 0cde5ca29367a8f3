//! Changes of the sample board that are undone, those that can't be, and those that are refused.
use super::expect_told;

/// Changes, with what undoes them.
const UNDONE: &str = "story changes of a sensor are undone
# Upper critical becomes 5Ah.
change ipmi 10 26 05 10 000000005A00 : 3F140A05505F6E -> 3F140A05505A6E : 05 10 000000005F00
change ipmi 10 24 05 FF 0301 : 0202 -> 0301 : 05 FF 0202
# The events of offsets 7 and 9, asserted, and of offset 0, deasserted, are enabled: 9 was. Then they are disabled, and then they stay.
change ipmi 10 28 05 50 8002 0100 : C000020000 -> 4080020100 : 05 E0 8000 0100
change ipmi 10 28 05 60 8002 0100 : C000020000 -> 4000000000 : 05 D0 0002 0000
change ipmi 10 28 05 40 : C000020000 -> 4000020000 : 05 C0
# A threshold that can't be read.
ipmi 10 27 07 -> 00 1800000090A000
undo ipmi 10 26 07 20 0000000000B8 : 1800000090A000 -> none

story changes of the policy and the enables are undone
# The policy that the sample board has.
ipmi 00 06 01 -> 00 07
change ipmi 00 06 02 : 200000 -> 400000 : 01
change ipmi 00 06 00 : 200000 -> 000000 : 01
change ipmi 18 2E E7 : 08 -> E7 : 08

story changes of a user and a channel are undone
change ipmi 18 45 02 61*16 : 61646D696E 00*11 -> 61*16 : 02 61646D696E 00*11
change ipmi 18 43 A10203 : 02800114 -> 02800123 : 910204
change ipmi 18 43 210203 : 02800114 -> 02800113 : 010204
change ipmi 18 40 017945 : 0204 -> 3905 : 014244

story changes of boot parameters are undone
ipmi 00 08 04 FFA5 -> 00
change ipmi 00 08 83 15 : 010300 -> 018315 : 03 00
# What undoes masked bits has their mask and the whole old byte.
change ipmi 00 08 84 0F5A : 010400A5 -> 018400AA : 04 0FA5
change ipmi 00 08 05 8004010203 : 01050000000000 -> 01058004010203 : 05 0000000000
# A mark alone.
change ipmi 00 08 84 : 010400A5 -> 018400A5 : 04
change ipmi 00 08 85 : 01050000000000 -> 01850000000000 : 05

story a change of a watchdog is undone once it was set
ipmi 18 25 -> 00 00*8
undo ipmi 18 24 C4110510 7017 : 00*8 -> none
ipmi 18 24 04010A00 B80B -> 00
# The undo clears no flag.
change ipmi 18 24 04010A00 7017 : 04010A00B80BB80B -> 04010A0070177017 : 04010A00 B80B
# The timer is stopped, so bit 6 of the undo is 0.
change ipmi 18 24 C4110510 7017 : 04010A00B80BB80B -> 8411050070177017 : 04010A00 B80B

story a watchdog that runs has no undo
ipmi 18 24 04010A00 B80B -> 00
ipmi 18 22 -> 00
ipmi 18 25 -> 00 44010A00B80BB80B
undo ipmi 18 24 C4110510 7017 : 44010A00B80BB80B -> none

story what undoes a change comes from the reply alone
# Masked bits, from a reply of another parameter's length too.
undo ipmi 00 08 84 0F5A : 010400A5 -> 040FA5
undo ipmi 00 08 84 0F5A : 0104A5 -> none
# A fan sensor, of which the upper thresholds but the highest can be read.
undo ipmi 10 26 07 20 0000000000B8 : 1800000090A000 -> none
undo ipmi 10 26 07 10 00000000A800 : 1800000090A000 -> 071000000000A000
undo ipmi 10 24 05 FF 0301 : 0202 -> 05FF0202
undo ipmi 10 24 05 FF 0301 : 02 -> none
# The reply shows messages alone; offset 9 is enabled, asserted and deasserted. The events that weren't enabled are disabled: 7 and 0. Those
# that were are enabled: 9.
undo ipmi 10 28 05 D0 8002 0100 : 8000020002 -> 05A080000100
undo ipmi 10 28 05 E0 8002 0100 : 8000020002 -> 059000020000
undo ipmi 10 28 05 C0 : 8000020002 -> 0580
undo ipmi 10 28 05 C0 : 800002000200 -> none
# A policy that is known, one that isn't, and a reply that is too short.
undo ipmi 00 06 02 : 200000 -> 01
undo ipmi 00 06 02 : 600000 -> none
undo ipmi 00 06 02 : 2000 -> none
# Bits 7 and 3 of the watchdog's actions are no settings. Then: a timer that runs, settings that were never set, and a short reply.
undo ipmi 18 24 C4110510 7017 : 84010A10B80B0000 -> 84010A00B80B
undo ipmi 18 24 C4110510 7017 : 84990A10B80B0000 -> 84110A00B80B
undo ipmi 18 24 C4110510 7017 : 44010A00B80B1000 -> none
undo ipmi 18 24 C4110510 7017 : 00*8 -> none
undo ipmi 18 24 C4110510 7017 : 84010A10B80B00 -> none

story a refused change leaves records and activity
# The timer runs.
ipmi 18 24 04010A00 B80B -> 00
ipmi 18 22 -> 00
ipmi 10 27 05 -> 00 3F140A05505F6E
ipmi 10 27 07 -> 00 1800000090A000
ipmi 10 25 05FF -> 00 0202
ipmi 10 25 07FF -> 00 0000
ipmi 10 29 05 -> 00 C000020000
ipmi 10 29 07 -> 00 00*5
ipmi 00 01 -> 00 200000
ipmi 18 25 -> 00 44010A00B80BB80B
ipmi 18 2F -> 00 08
ipmi 00 09 030000 -> 00 010300
ipmi 00 09 040000 -> 00 01040000
ipmi 00 09 050000 -> 00 01050000000000
kept ipmi 10 27 05 -> 140A05505F6E
kept ipmi 10 27 07 -> 00000090A0B0
kept ipmi 10 25 05FF -> 0202
kept ipmi 10 25 07FF -> 0000
kept ipmi 10 29 05 -> C000020000
kept ipmi 10 29 07 -> 00*5
kept ipmi 00 01 -> 01
kept ipmi 18 25 -> 04010AB80B
kept ipmi 18 2F -> 08
kept ipmi 00 09 030000 -> 00*2
kept ipmi 00 09 040000 -> 00*2
kept ipmi 00 09 050000 -> 00*6
# Upper critical above upper non-recoverable.
from 2C
ipmi 10 26 05 10 000000007000 -> CC
ipmi 10 27 05 -> 00 3F140A05505F6E
ipmi 10 27 07 -> 00 1800000090A000
ipmi 10 25 05FF -> 00 0202
ipmi 10 25 07FF -> 00 0000
ipmi 10 29 05 -> 00 C000020000
ipmi 10 29 07 -> 00 00*5
ipmi 00 01 -> 00 200000
ipmi 18 25 -> 00 44010A00B80BB80B
ipmi 18 2F -> 00 08
ipmi 00 09 030000 -> 00 010300
ipmi 00 09 040000 -> 00 01040000
ipmi 00 09 050000 -> 00 01050000000000
kept ipmi 10 27 05 -> 140A05505F6E
kept ipmi 10 27 07 -> 00000090A0B0
kept ipmi 10 25 05FF -> 0202
kept ipmi 10 25 07FF -> 0000
kept ipmi 10 29 05 -> C000020000
kept ipmi 10 29 07 -> 00*5
kept ipmi 00 01 -> 01
kept ipmi 18 25 -> 04010AB80B
kept ipmi 18 2F -> 08
kept ipmi 00 09 030000 -> 00*2
kept ipmi 00 09 040000 -> 00*2
kept ipmi 00 09 050000 -> 00*6
from 40
ipmi 10 26 05 10 000000007000 -> CC
ipmi 10 27 05 -> 00 3F140A05505F6E
ipmi 10 27 07 -> 00 1800000090A000
ipmi 10 25 05FF -> 00 0202
ipmi 10 25 07FF -> 00 0000
ipmi 10 29 05 -> 00 C000020000
ipmi 10 29 07 -> 00 00*5
ipmi 00 01 -> 00 200000
ipmi 18 25 -> 00 44010A00B80BB80B
ipmi 18 2F -> 00 08
ipmi 00 09 030000 -> 00 010300
ipmi 00 09 040000 -> 00 01040000
ipmi 00 09 050000 -> 00 01050000000000
kept ipmi 10 27 05 -> 140A05505F6E
kept ipmi 10 27 07 -> 00000090A0B0
kept ipmi 10 25 05FF -> 0202
kept ipmi 10 25 07FF -> 0000
kept ipmi 10 29 05 -> C000020000
kept ipmi 10 29 07 -> 00*5
kept ipmi 00 01 -> 01
kept ipmi 18 25 -> 04010AB80B
kept ipmi 18 2F -> 08
kept ipmi 00 09 030000 -> 00*2
kept ipmi 00 09 040000 -> 00*2
kept ipmi 00 09 050000 -> 00*6
# A sensor that is not there.
from 2C
ipmi 10 24 09 FF 0301 -> CB
ipmi 10 27 05 -> 00 3F140A05505F6E
ipmi 10 27 07 -> 00 1800000090A000
ipmi 10 25 05FF -> 00 0202
ipmi 10 25 07FF -> 00 0000
ipmi 10 29 05 -> 00 C000020000
ipmi 10 29 07 -> 00 00*5
ipmi 00 01 -> 00 200000
ipmi 18 25 -> 00 44010A00B80BB80B
ipmi 18 2F -> 00 08
ipmi 00 09 030000 -> 00 010300
ipmi 00 09 040000 -> 00 01040000
ipmi 00 09 050000 -> 00 01050000000000
kept ipmi 10 27 05 -> 140A05505F6E
kept ipmi 10 27 07 -> 00000090A0B0
kept ipmi 10 25 05FF -> 0202
kept ipmi 10 25 07FF -> 0000
kept ipmi 10 29 05 -> C000020000
kept ipmi 10 29 07 -> 00*5
kept ipmi 00 01 -> 01
kept ipmi 18 25 -> 04010AB80B
kept ipmi 18 2F -> 08
kept ipmi 00 09 030000 -> 00*2
kept ipmi 00 09 040000 -> 00*2
kept ipmi 00 09 050000 -> 00*6
from 40
ipmi 10 24 09 FF 0301 -> CB
ipmi 10 27 05 -> 00 3F140A05505F6E
ipmi 10 27 07 -> 00 1800000090A000
ipmi 10 25 05FF -> 00 0202
ipmi 10 25 07FF -> 00 0000
ipmi 10 29 05 -> 00 C000020000
ipmi 10 29 07 -> 00 00*5
ipmi 00 01 -> 00 200000
ipmi 18 25 -> 00 44010A00B80BB80B
ipmi 18 2F -> 00 08
ipmi 00 09 030000 -> 00 010300
ipmi 00 09 040000 -> 00 01040000
ipmi 00 09 050000 -> 00 01050000000000
kept ipmi 10 27 05 -> 140A05505F6E
kept ipmi 10 27 07 -> 00000090A0B0
kept ipmi 10 25 05FF -> 0202
kept ipmi 10 25 07FF -> 0000
kept ipmi 10 29 05 -> C000020000
kept ipmi 10 29 07 -> 00*5
kept ipmi 00 01 -> 01
kept ipmi 18 25 -> 04010AB80B
kept ipmi 18 2F -> 08
kept ipmi 00 09 030000 -> 00*2
kept ipmi 00 09 040000 -> 00*2
kept ipmi 00 09 050000 -> 00*6
# A reserved selection of events.
from 2C
ipmi 10 28 0530 -> CC
ipmi 10 27 05 -> 00 3F140A05505F6E
ipmi 10 27 07 -> 00 1800000090A000
ipmi 10 25 05FF -> 00 0202
ipmi 10 25 07FF -> 00 0000
ipmi 10 29 05 -> 00 C000020000
ipmi 10 29 07 -> 00 00*5
ipmi 00 01 -> 00 200000
ipmi 18 25 -> 00 44010A00B80BB80B
ipmi 18 2F -> 00 08
ipmi 00 09 030000 -> 00 010300
ipmi 00 09 040000 -> 00 01040000
ipmi 00 09 050000 -> 00 01050000000000
kept ipmi 10 27 05 -> 140A05505F6E
kept ipmi 10 27 07 -> 00000090A0B0
kept ipmi 10 25 05FF -> 0202
kept ipmi 10 25 07FF -> 0000
kept ipmi 10 29 05 -> C000020000
kept ipmi 10 29 07 -> 00*5
kept ipmi 00 01 -> 01
kept ipmi 18 25 -> 04010AB80B
kept ipmi 18 2F -> 08
kept ipmi 00 09 030000 -> 00*2
kept ipmi 00 09 040000 -> 00*2
kept ipmi 00 09 050000 -> 00*6
from 40
ipmi 10 28 0530 -> CC
ipmi 10 27 05 -> 00 3F140A05505F6E
ipmi 10 27 07 -> 00 1800000090A000
ipmi 10 25 05FF -> 00 0202
ipmi 10 25 07FF -> 00 0000
ipmi 10 29 05 -> 00 C000020000
ipmi 10 29 07 -> 00 00*5
ipmi 00 01 -> 00 200000
ipmi 18 25 -> 00 44010A00B80BB80B
ipmi 18 2F -> 00 08
ipmi 00 09 030000 -> 00 010300
ipmi 00 09 040000 -> 00 01040000
ipmi 00 09 050000 -> 00 01050000000000
kept ipmi 10 27 05 -> 140A05505F6E
kept ipmi 10 27 07 -> 00000090A0B0
kept ipmi 10 25 05FF -> 0202
kept ipmi 10 25 07FF -> 0000
kept ipmi 10 29 05 -> C000020000
kept ipmi 10 29 07 -> 00*5
kept ipmi 00 01 -> 01
kept ipmi 18 25 -> 04010AB80B
kept ipmi 18 2F -> 08
kept ipmi 00 09 030000 -> 00*2
kept ipmi 00 09 040000 -> 00*2
kept ipmi 00 09 050000 -> 00*6
# Events that are not supported, to be enabled and to be disabled.
from 2C
ipmi 10 28 05 10 0000 0010 -> CC
ipmi 10 27 05 -> 00 3F140A05505F6E
ipmi 10 27 07 -> 00 1800000090A000
ipmi 10 25 05FF -> 00 0202
ipmi 10 25 07FF -> 00 0000
ipmi 10 29 05 -> 00 C000020000
ipmi 10 29 07 -> 00 00*5
ipmi 00 01 -> 00 200000
ipmi 18 25 -> 00 44010A00B80BB80B
ipmi 18 2F -> 00 08
ipmi 00 09 030000 -> 00 010300
ipmi 00 09 040000 -> 00 01040000
ipmi 00 09 050000 -> 00 01050000000000
kept ipmi 10 27 05 -> 140A05505F6E
kept ipmi 10 27 07 -> 00000090A0B0
kept ipmi 10 25 05FF -> 0202
kept ipmi 10 25 07FF -> 0000
kept ipmi 10 29 05 -> C000020000
kept ipmi 10 29 07 -> 00*5
kept ipmi 00 01 -> 01
kept ipmi 18 25 -> 04010AB80B
kept ipmi 18 2F -> 08
kept ipmi 00 09 030000 -> 00*2
kept ipmi 00 09 040000 -> 00*2
kept ipmi 00 09 050000 -> 00*6
from 40
ipmi 10 28 05 10 0000 0010 -> CC
ipmi 10 27 05 -> 00 3F140A05505F6E
ipmi 10 27 07 -> 00 1800000090A000
ipmi 10 25 05FF -> 00 0202
ipmi 10 25 07FF -> 00 0000
ipmi 10 29 05 -> 00 C000020000
ipmi 10 29 07 -> 00 00*5
ipmi 00 01 -> 00 200000
ipmi 18 25 -> 00 44010A00B80BB80B
ipmi 18 2F -> 00 08
ipmi 00 09 030000 -> 00 010300
ipmi 00 09 040000 -> 00 01040000
ipmi 00 09 050000 -> 00 01050000000000
kept ipmi 10 27 05 -> 140A05505F6E
kept ipmi 10 27 07 -> 00000090A0B0
kept ipmi 10 25 05FF -> 0202
kept ipmi 10 25 07FF -> 0000
kept ipmi 10 29 05 -> C000020000
kept ipmi 10 29 07 -> 00*5
kept ipmi 00 01 -> 01
kept ipmi 18 25 -> 04010AB80B
kept ipmi 18 2F -> 08
kept ipmi 00 09 030000 -> 00*2
kept ipmi 00 09 040000 -> 00*2
kept ipmi 00 09 050000 -> 00*6
from 2C
ipmi 10 28 05 20 0000 0010 -> CC
ipmi 10 27 05 -> 00 3F140A05505F6E
ipmi 10 27 07 -> 00 1800000090A000
ipmi 10 25 05FF -> 00 0202
ipmi 10 25 07FF -> 00 0000
ipmi 10 29 05 -> 00 C000020000
ipmi 10 29 07 -> 00 00*5
ipmi 00 01 -> 00 200000
ipmi 18 25 -> 00 44010A00B80BB80B
ipmi 18 2F -> 00 08
ipmi 00 09 030000 -> 00 010300
ipmi 00 09 040000 -> 00 01040000
ipmi 00 09 050000 -> 00 01050000000000
kept ipmi 10 27 05 -> 140A05505F6E
kept ipmi 10 27 07 -> 00000090A0B0
kept ipmi 10 25 05FF -> 0202
kept ipmi 10 25 07FF -> 0000
kept ipmi 10 29 05 -> C000020000
kept ipmi 10 29 07 -> 00*5
kept ipmi 00 01 -> 01
kept ipmi 18 25 -> 04010AB80B
kept ipmi 18 2F -> 08
kept ipmi 00 09 030000 -> 00*2
kept ipmi 00 09 040000 -> 00*2
kept ipmi 00 09 050000 -> 00*6
from 40
ipmi 10 28 05 20 0000 0010 -> CC
ipmi 10 27 05 -> 00 3F140A05505F6E
ipmi 10 27 07 -> 00 1800000090A000
ipmi 10 25 05FF -> 00 0202
ipmi 10 25 07FF -> 00 0000
ipmi 10 29 05 -> 00 C000020000
ipmi 10 29 07 -> 00 00*5
ipmi 00 01 -> 00 200000
ipmi 18 25 -> 00 44010A00B80BB80B
ipmi 18 2F -> 00 08
ipmi 00 09 030000 -> 00 010300
ipmi 00 09 040000 -> 00 01040000
ipmi 00 09 050000 -> 00 01050000000000
kept ipmi 10 27 05 -> 140A05505F6E
kept ipmi 10 27 07 -> 00000090A0B0
kept ipmi 10 25 05FF -> 0202
kept ipmi 10 25 07FF -> 0000
kept ipmi 10 29 05 -> C000020000
kept ipmi 10 29 07 -> 00*5
kept ipmi 00 01 -> 01
kept ipmi 18 25 -> 04010AB80B
kept ipmi 18 2F -> 08
kept ipmi 00 09 030000 -> 00*2
kept ipmi 00 09 040000 -> 00*2
kept ipmi 00 09 050000 -> 00*6
# A policy of 4.
from 2C
ipmi 00 06 04 -> CC
ipmi 10 27 05 -> 00 3F140A05505F6E
ipmi 10 27 07 -> 00 1800000090A000
ipmi 10 25 05FF -> 00 0202
ipmi 10 25 07FF -> 00 0000
ipmi 10 29 05 -> 00 C000020000
ipmi 10 29 07 -> 00 00*5
ipmi 00 01 -> 00 200000
ipmi 18 25 -> 00 44010A00B80BB80B
ipmi 18 2F -> 00 08
ipmi 00 09 030000 -> 00 010300
ipmi 00 09 040000 -> 00 01040000
ipmi 00 09 050000 -> 00 01050000000000
kept ipmi 10 27 05 -> 140A05505F6E
kept ipmi 10 27 07 -> 00000090A0B0
kept ipmi 10 25 05FF -> 0202
kept ipmi 10 25 07FF -> 0000
kept ipmi 10 29 05 -> C000020000
kept ipmi 10 29 07 -> 00*5
kept ipmi 00 01 -> 01
kept ipmi 18 25 -> 04010AB80B
kept ipmi 18 2F -> 08
kept ipmi 00 09 030000 -> 00*2
kept ipmi 00 09 040000 -> 00*2
kept ipmi 00 09 050000 -> 00*6
from 40
ipmi 00 06 04 -> CC
ipmi 10 27 05 -> 00 3F140A05505F6E
ipmi 10 27 07 -> 00 1800000090A000
ipmi 10 25 05FF -> 00 0202
ipmi 10 25 07FF -> 00 0000
ipmi 10 29 05 -> 00 C000020000
ipmi 10 29 07 -> 00 00*5
ipmi 00 01 -> 00 200000
ipmi 18 25 -> 00 44010A00B80BB80B
ipmi 18 2F -> 00 08
ipmi 00 09 030000 -> 00 010300
ipmi 00 09 040000 -> 00 01040000
ipmi 00 09 050000 -> 00 01050000000000
kept ipmi 10 27 05 -> 140A05505F6E
kept ipmi 10 27 07 -> 00000090A0B0
kept ipmi 10 25 05FF -> 0202
kept ipmi 10 25 07FF -> 0000
kept ipmi 10 29 05 -> C000020000
kept ipmi 10 29 07 -> 00*5
kept ipmi 00 01 -> 01
kept ipmi 18 25 -> 04010AB80B
kept ipmi 18 2F -> 08
kept ipmi 00 09 030000 -> 00*2
kept ipmi 00 09 040000 -> 00*2
kept ipmi 00 09 050000 -> 00*6
# A use of the timer that there is none.
from 2C
ipmi 18 24 060000FF 0100 -> CC
ipmi 10 27 05 -> 00 3F140A05505F6E
ipmi 10 27 07 -> 00 1800000090A000
ipmi 10 25 05FF -> 00 0202
ipmi 10 25 07FF -> 00 0000
ipmi 10 29 05 -> 00 C000020000
ipmi 10 29 07 -> 00 00*5
ipmi 00 01 -> 00 200000
ipmi 18 25 -> 00 44010A00B80BB80B
ipmi 18 2F -> 00 08
ipmi 00 09 030000 -> 00 010300
ipmi 00 09 040000 -> 00 01040000
ipmi 00 09 050000 -> 00 01050000000000
kept ipmi 10 27 05 -> 140A05505F6E
kept ipmi 10 27 07 -> 00000090A0B0
kept ipmi 10 25 05FF -> 0202
kept ipmi 10 25 07FF -> 0000
kept ipmi 10 29 05 -> C000020000
kept ipmi 10 29 07 -> 00*5
kept ipmi 00 01 -> 01
kept ipmi 18 25 -> 04010AB80B
kept ipmi 18 2F -> 08
kept ipmi 00 09 030000 -> 00*2
kept ipmi 00 09 040000 -> 00*2
kept ipmi 00 09 050000 -> 00*6
from 40
ipmi 18 24 060000FF 0100 -> CC
ipmi 10 27 05 -> 00 3F140A05505F6E
ipmi 10 27 07 -> 00 1800000090A000
ipmi 10 25 05FF -> 00 0202
ipmi 10 25 07FF -> 00 0000
ipmi 10 29 05 -> 00 C000020000
ipmi 10 29 07 -> 00 00*5
ipmi 00 01 -> 00 200000
ipmi 18 25 -> 00 44010A00B80BB80B
ipmi 18 2F -> 00 08
ipmi 00 09 030000 -> 00 010300
ipmi 00 09 040000 -> 00 01040000
ipmi 00 09 050000 -> 00 01050000000000
kept ipmi 10 27 05 -> 140A05505F6E
kept ipmi 10 27 07 -> 00000090A0B0
kept ipmi 10 25 05FF -> 0202
kept ipmi 10 25 07FF -> 0000
kept ipmi 10 29 05 -> C000020000
kept ipmi 10 29 07 -> 00*5
kept ipmi 00 01 -> 01
kept ipmi 18 25 -> 04010AB80B
kept ipmi 18 2F -> 08
kept ipmi 00 09 030000 -> 00*2
kept ipmi 00 09 040000 -> 00*2
kept ipmi 00 09 050000 -> 00*6
# A reserved bit of the enables.
from 2C
ipmi 18 2E 18 -> CC
ipmi 10 27 05 -> 00 3F140A05505F6E
ipmi 10 27 07 -> 00 1800000090A000
ipmi 10 25 05FF -> 00 0202
ipmi 10 25 07FF -> 00 0000
ipmi 10 29 05 -> 00 C000020000
ipmi 10 29 07 -> 00 00*5
ipmi 00 01 -> 00 200000
ipmi 18 25 -> 00 44010A00B80BB80B
ipmi 18 2F -> 00 08
ipmi 00 09 030000 -> 00 010300
ipmi 00 09 040000 -> 00 01040000
ipmi 00 09 050000 -> 00 01050000000000
kept ipmi 10 27 05 -> 140A05505F6E
kept ipmi 10 27 07 -> 00000090A0B0
kept ipmi 10 25 05FF -> 0202
kept ipmi 10 25 07FF -> 0000
kept ipmi 10 29 05 -> C000020000
kept ipmi 10 29 07 -> 00*5
kept ipmi 00 01 -> 01
kept ipmi 18 25 -> 04010AB80B
kept ipmi 18 2F -> 08
kept ipmi 00 09 030000 -> 00*2
kept ipmi 00 09 040000 -> 00*2
kept ipmi 00 09 050000 -> 00*6
from 40
ipmi 18 2E 18 -> CC
ipmi 10 27 05 -> 00 3F140A05505F6E
ipmi 10 27 07 -> 00 1800000090A000
ipmi 10 25 05FF -> 00 0202
ipmi 10 25 07FF -> 00 0000
ipmi 10 29 05 -> 00 C000020000
ipmi 10 29 07 -> 00 00*5
ipmi 00 01 -> 00 200000
ipmi 18 25 -> 00 44010A00B80BB80B
ipmi 18 2F -> 00 08
ipmi 00 09 030000 -> 00 010300
ipmi 00 09 040000 -> 00 01040000
ipmi 00 09 050000 -> 00 01050000000000
kept ipmi 10 27 05 -> 140A05505F6E
kept ipmi 10 27 07 -> 00000090A0B0
kept ipmi 10 25 05FF -> 0202
kept ipmi 10 25 07FF -> 0000
kept ipmi 10 29 05 -> C000020000
kept ipmi 10 29 07 -> 00*5
kept ipmi 00 01 -> 01
kept ipmi 18 25 -> 04010AB80B
kept ipmi 18 2F -> 08
kept ipmi 00 09 030000 -> 00*2
kept ipmi 00 09 040000 -> 00*2
kept ipmi 00 09 050000 -> 00*6

story a refused timer and a refused policy change nothing, and a policy of 3 is none
ipmi 00 06 03 -> 00 07
ipmi 00 01 -> 00 200000
ipmi 18 24 000000000100 -> CC
ipmi 18 25 -> 00 00*8

story a set of a timer that runs begins the countdown anew
# Both flags are set, of the uses 3 and 4.
ipmi 18 24 030000000000 -> 00
ipmi 18 22 -> 00
tick
ipmi 18 24 040000000000 -> 00
ipmi 18 22 -> 00
tick
ipmi 18 24 04010A00 B80B -> 00
ipmi 18 25 -> 00 04010A18B80BB80B
# A reset starts a timer that was set, and the flags stay.
ipmi 18 22 -> 00
ipmi 18 25 -> 00 44010A18B80BB80B
tick 10
ipmi 18 25 -> 00 44010A18B80BAE0B
ipmi 18 22 -> 00
ipmi 18 25 -> 00 44010A18B80BB80B
# Bit 6 lets the timer run on; bit 4 clears the flag of use 4.
ipmi 18 24 C4110510 7017 -> 00
ipmi 18 25 -> 00 C411050870177017
ipmi 18 24 04000000 0100 -> 00
ipmi 18 25 -> 00 0400000801000100

story a reset starts no timer that was never set
ipmi 18 22 -> 80
ipmi 18 25 -> 00 00*8
";

#[test]
fn changes_are_undone_where_a_get_showed_what_was(rt: HostRuntime) {
    expect_told(&rt, rt.alloc(), UNDONE);
}
