//! Ten of the random plays that `tools/random-plays` makes. Of their ends the theorem on undone plans, and the generator's own model of a
//! plan's course, say the phase and the records. In three of them (118, 209, 351) first packets of long texts come late. In five of them (101,
//! 118, 209, 229, 394) texts are set in parts, and in one (118) such a text is brought back.
use super::expect_told;

/// Random plans on boards, by random honest schedules.
const RANDOM: &str = "story schedule 101
board sample effecters lan
swap most = 200 => most = 1000
plan
  retries = 3
  [[step]] / kind = \"bios-attribute\" / handle = 1 / text = \"{926*o}\"
schedule
  start / to-bmc 0 / idle smbus 13 / to-mgr 1 / undo / tick / to-bmc 5 / to-bmc 2 / other smbus 11 018202320400 / to-bmc 3 / to-bmc 4
  to-bmc 5 / noise smbus 300F1A21010835C00100030800000000000501000106007261636B2D3150 / to-mgr 7 / to-bmc 8 / quiet
  noise smbus 200F4531010A08296F6F6F6F6F6F6F6F6F6F6F6F6F6F6F6F6F6F6F6F6F6F6F6F6F6F6F6F6F6F6F6F6F6F6F6FAF6F6F6F6F6F6F6F6F6F6F6F6F6F6F6F6F6F6F6F6F6F6F6F6F6F6F6FE2
  to-bmc 13 / noise smbus 300F0E2101080AC1010103DB00C000000043 / to-bmc 9 / scan 07 DD / quiet / to-bmc 10 / to-bmc 11 / to-bmc 12
  to-bmc 14 / to-bmc 15 / to-bmc 16 / to-bmc 17 / to-bmc 16 / noise smbus 200F0E7E010A08796F6F6F6F6F6F6F6F6FD8
  other ipmb 46 008A09050000 / to-bmc 18 / to-bmc 19 / to-bmc 16 / to-bmc 19 / tick / to-bmc 19
  noise smbus 200F4531010A08296F6F6F6F6F6F6F6F6F6F6F6F6F6F6F6F6F6F6F6F6F6F6F6F6F6F6F6F6F6F6F6F6F6F6F6F6F6F3A6F6F6F6F6F6F6F6F6F6F6F6F6F6F6F6F6F6F6F6F6F6F6F6F6FE2
  other ipmb 44 10BD250500 / to-bmc 19 / to-bmc 19 / to-bmc 19 / to-bmc 19 / to-bmc 19 / to-bmc 19 / to-bmc 19 / quiet / quiet / again
  to-bmc 22 / to-bmc 23 / to-bmc 24 / to-bmc 25 / scan 07 C3 / to-bmc 3
  noise smbus 200F4531010A082A6F6F6F6F6F6F6F6F6F6F6F6F6F6F6F6F6F6F6F6F6F6F6F6F6F6F6F6F6F6F6F6F6F6F6F6F6F6F6F6F6F6F6F6F6F6F6F6F6F6F6FF86F6F6F6F6F6F6F6F6F6F6F6F72
  to-mgr 30
  noise smbus 200F4531010A082A6F6F6F6F6F6F6F6F6F6F6F6F6F6F6F6F6F466F6F6F6F6F6F6F6F6F6F6F6F6F6F6F6F6F6F6F6F6F6F6F6F6F6F6F6F6F6F6F6F6F6F6F6F6F6F6F6F6F6F6F6F6F6F72
  other ipmb 44 28554400000200000000010203040506070809 / to-bmc 31 / to-bmc 32 / scan 07 2E / to-bmc 33 / quiet / to-bmc 34 / to-mgr 40
  to-bmc 41 / to-bmc 42 / to-bmc 43 / to-bmc 44 / to-mgr 45 / tick / to-bmc 46 / other smbus 12 018602330400
  noise smbus 130F1031010A08C801800308000000000101000B / to-bmc 47 / to-bmc 48 / to-mgr 50
premises -> 0 out: phase Done / .. / records changed 1 / premises kept
then
  undo / to-bmc 46 / to-bmc 51 / to-mgr 52 / to-bmc 51 / to-bmc 51 / quiet / other smbus 13 008505 / to-mgr 53 / to-bmc 51
premises -> 0 out: phase Undone / .. / records same / premises kept

story schedule 118
board sample effecters lan
swap most = 200 => most = 1000
plan
  retries = 2
  [[step]] / kind = \"bios-attribute\" / handle = 1 / text = \"{108*u}\"
  [[step]] / kind = \"bios-attribute\" / handle = 1 / text = \"{168*r}\"
  [[step]] / kind = \"bios-attribute\" / handle = 1 / text = \"{441*t}\"
  [[step]] / kind = \"bios-attribute\" / handle = 1 / text = \"{119*f}\"
  [[step]] / kind = \"bios-attribute\" / handle = 1 / text = \"{133*f}\"
schedule
  start / to-bmc 0 / to-mgr 1 / to-bmc 3 / to-bmc 2 / quiet / to-bmc 4 / to-bmc 5 / to-mgr 6 / to-bmc 7 / to-mgr 8 / to-mgr 9
  to-bmc 10 / to-bmc 11 / to-bmc 12 / to-mgr 13 / to-bmc 14 / to-mgr 15 / to-mgr 16 / to-mgr 17 / to-bmc 18 / to-bmc 19 / to-bmc 20
  to-bmc 21 / to-mgr 22 / to-bmc 23 / to-bmc 24 / to-bmc 25 / to-bmc 26 / to-mgr 27 / to-bmc 28 / to-bmc 29 / to-mgr 30 / to-bmc 31
  other smbus 13 01800002 / to-mgr 32 / tick / to-mgr 33 / to-mgr 34 / to-mgr 35 / to-bmc 37 / to-mgr 38 / to-mgr 39 / to-mgr 40
  start / to-mgr 41 / to-bmc 42 / to-mgr 43 / to-mgr 44 / to-bmc 45 / to-mgr 16 / to-bmc 46 / to-bmc 47 / to-mgr 48 / to-bmc 18
  to-bmc 49 / to-mgr 50 / to-mgr 51 / to-mgr 52 / to-bmc 53 / to-bmc 54 / other ipmb 42 18F701 / to-bmc 28 / to-bmc 55 / to-bmc 28
  to-mgr 57
premises -> 0 out: phase Done / .. / records changed 1 / premises kept
then
  to-bmc 28 / undo / to-bmc 58 / other ipmb 42 10142905 / to-bmc 59 / to-bmc 60 / to-mgr 62 / to-bmc 63 / other ipmb 46 30EB0201030000
  to-bmc 64 / to-bmc 65 / to-bmc 66 / to-mgr 68 / to-bmc 69 / to-bmc 70 / to-bmc 71 / to-bmc 72
  noise smbus 300F452101080A84010C030800000000000501000177006666666666666666666666666666666666666666666666666666666666066666666666666666666666666666666666666661
  to-mgr 73 / to-bmc 45 / to-bmc 45 / to-bmc 74 / to-bmc 75 / to-mgr 76 / to-bmc 77 / to-bmc 53 / to-bmc 78 / to-bmc 79 / to-mgr 80
  to-bmc 81 / to-bmc 82 / to-mgr 83 / to-bmc 84 / to-mgr 85 / to-mgr 85 / to-bmc 53 / other smbus 13 018302320501 / tick / to-mgr 85
  to-mgr 85
premises -> 0 out: phase Undone / .. / records same / premises kept

story schedule 155
board sample
plan
  retries = 0
  [[step]] / kind = \"event-enable\" / sensor = 5 / messages = true / scanning = true
  select = \"enable\" / assert = [0, 4, 6, 8, 10, 11] / deassert = [3, 4, 5, 7, 8, 10, 11]
  [[step]] / kind = \"state-effecter\" / effecter = 9 / states = [2, 2]
  [[step]] / kind = \"bios-attribute\" / handle = 2 / number = 190
schedule
  start / other ipmb 44 30C10201030000 / to-bmc 0 / to-mgr 2 / quiet / again / to-bmc 3 / to-bmc 0 / to-mgr 6 / to-mgr 6 / start
  to-mgr 6 / other smbus 11 01800002 / to-mgr 2 / to-mgr 6 / to-mgr 6 / to-mgr 6 / to-mgr 6 / to-mgr 6 / to-mgr 6 / quiet / quiet
  scan 09 10 / again / other ipmb 46 30E10201030000 / quiet / again / other ipmb 40 1018250500 / tick / tick / scan 07 9D
  other ipmb 40 101A250500 / scan 05 60 / again / quiet / again / to-bmc 13 / to-mgr 5 / to-bmc 15 / other smbus 13 01800002
  to-mgr 16
premises -> 0 out: phase Halted 1 GetRefused 80 / .. / records changed 1 / premises kept
then
  tick / undo / scan 07 40 / other ipmb 40 30340201030000 / to-bmc 18 / to-mgr 20 / undo / tick / noise ipmb 2010D02C042805D0510DB8D6B0
  to-mgr 20 / to-mgr 20 / to-mgr 20
premises -> 0 out: phase Undone / .. / records same / premises kept

story schedule 209
board sample effecters lan
swap most = 200 => most = 1000
plan
  retries = 3
  [[step]] / kind = \"bios-attribute\" / handle = 1 / text = \"{190*n}\"
  [[step]] / kind = \"bios-attribute\" / handle = 1 / text = \"{176*z}\"
  [[step]] / kind = \"bios-attribute\" / handle = 1 / text = \"{335*l}\"
  [[step]] / kind = \"bios-attribute\" / handle = 1 / text = \"{372*u}\"
  [[step]] / kind = \"bios-attribute\" / handle = 1 / text = \"{164*a}\"
schedule
  start / other smbus 12 018302320501 / tick / to-bmc 0 / tick / quiet / to-bmc 3 / to-mgr 2 / to-bmc 5 / to-bmc 6 / to-bmc 7
  to-bmc 8 / to-mgr 9 / to-bmc 10 / to-mgr 11 / to-mgr 12 / to-bmc 5 / to-mgr 13 / to-mgr 14 / to-bmc 15 / to-bmc 16 / to-bmc 17
  to-mgr 18 / to-bmc 19 / to-mgr 20 / other ipmb 42 28224910203040 / to-mgr 21 / idle smbus 11 / to-mgr 22 / to-bmc 24 / to-bmc 25
  idle smbus 11 / to-bmc 26 / scan 05 71 / to-bmc 27 / to-bmc 5 / to-mgr 28 / to-bmc 30 / to-bmc 31 / to-bmc 29 / stop / to-bmc 31
  to-bmc 31 / to-bmc 31 / to-bmc 31 / tick / to-bmc 5 / to-bmc 31
  noise smbus 30D31A2101080AC00100030800000000000501000106007261636B2D3150 / to-bmc 31 / to-bmc 31 / to-bmc 31 / to-bmc 31
  noise smbus 300F452101080A126E6E6E6E6E6E6E6E6E6E226E6E6E6E6E6E6E6E6E6E6E6E6E6E6E6E6E6E6E6E6E6E6E6E6E6E6E6E6E6E6E6E6E6E6E6E6E6E6E6E6E6E6E6E6E6E6E6E6E6E6E6E6EEC
  to-bmc 31 / to-bmc 31 / to-bmc 5 / to-bmc 31 / to-bmc 31 / quiet / to-bmc 32 / to-bmc 33 / to-bmc 34 / to-mgr 35
premises -> 0 out: phase Halted 3 Stop / .. / records changed 1 / premises kept
then
  undo / to-bmc 36 / to-bmc 37 / quiet / to-bmc 38 / to-mgr 42 / to-bmc 43 / to-bmc 44 / to-bmc 45 / to-bmc 46 / to-mgr 47 / to-bmc 48
  quiet / tick / idle ipmb 42 / to-bmc 50 / to-mgr 49 / quiet / tick / to-mgr 51 / to-mgr 51 / other ipmb 44 105A2D05 / to-mgr 51
premises -> 0 out: phase Undone / .. / records same / premises kept

story schedule 229
board sample effecters lan
swap most = 200 => most = 1000
plan
  retries = 3
  [[step]] / kind = \"numeric-effecter\" / effecter = 5 / size = 1 / value = -1
  [[step]] / kind = \"bios-attribute\" / handle = 1 / text = \"{348*k}\"
  [[step]] / kind = \"user-name\" / user = 2 / name = \"bhchrzlzondojdrx\"
  [[step]] / kind = \"event-enable\" / sensor = 5 / messages = true / scanning = false
  select = \"disable\" / assert = [0, 1, 2, 4, 6, 8] / deassert = [1, 2, 5, 8]
  [[step]] / kind = \"power-policy\" / policy = 2
schedule
  start / tick / idle ipmb 40 / tick / to-bmc 0 / to-mgr 1 / to-bmc 2 / tick / to-mgr 3 / other ipmb 46 10462905 / quiet / quiet
  to-bmc 4 / scan 09 73 / to-mgr 8 / quiet / scan 05 D5 / to-bmc 9 / to-bmc 10 / noise smbus 200F1031010A08CA017203080000000001010061
  to-bmc 11 / to-bmc 12 / to-mgr 17 / to-bmc 18 / tick / other smbus 11 018602330400 / to-bmc 19 / to-bmc 20 / to-mgr 22 / to-bmc 23
  to-mgr 24 / to-bmc 25 / to-mgr 26 / to-bmc 27 / scan 07 56 / to-mgr 28 / to-bmc 29 / to-bmc 29 / other smbus 12 018302320501 / quiet
  to-bmc 33 / to-mgr 30 / to-bmc 35 / to-mgr 36 / start / to-bmc 37 / to-mgr 38
premises -> 0 out: phase Done / .. / records changed 5 / premises kept
then
  noise smbus 200F0D31010A08C93D810231050001FF6D / undo / other ipmb 46 302B0201030000 / to-bmc 39 / noise ipmb 2018C82C00460278
  to-mgr 41 / to-mgr 38 / to-bmc 42 / to-mgr 43 / other smbus 12 01810004 / scan 05 74 / to-bmc 44 / to-mgr 46 / tick / quiet
  to-bmc 47 / to-mgr 49 / other smbus 12 008505 / to-bmc 50 / quiet / quiet / to-mgr 49 / to-bmc 53 / quiet / to-bmc 54 / to-mgr 52
  to-mgr 55 / noise ipmb 2018C82C04450262686368727A6C7A606E646F6A647278BA / to-mgr 57 / to-mgr 57 / to-mgr 57 / to-bmc 54
premises -> 0 out: phase Undone / .. / records same / premises kept

story schedule 295
board sample effecters lan
swap most = 200 => most = 1000
plan
  retries = 0
  [[step]] / kind = \"bios-attribute\" / handle = 1 / text = \"{176*s}\"
  [[step]] / kind = \"watchdog\" / use = 2 / no_log = false / action = 1 / interrupt = 0 / pre = 154 / initial = 17345
  [[step]] / kind = \"thresholds\" / sensor = 5 / lc = 15 / unc = 83 / unr = 116
  [[step]] / kind = \"event-enable\" / sensor = 7 / messages = false / scanning = false
  select = \"enable\" / assert = [6, 8, 11] / deassert = [10, 11]
  [[step]] / kind = \"bios-attribute\" / handle = 0 / indexes = [1]
schedule
  quiet / quiet / tick / quiet / quiet / again / undo / start / to-bmc 0 / to-mgr 1 / to-bmc 2 / tick / to-mgr 1 / to-bmc 3 / to-bmc 4
  to-mgr 5 / to-bmc 6 / other smbus 13 008505 / tick / other ipmb 4A 10CD2905 / to-bmc 4 / tick / to-mgr 7
premises -> 0 out: phase Halted 1 NotRestorable / .. / records changed 1 / premises kept
then
  undo / to-bmc 10 / to-mgr 11 / to-mgr 11 / to-mgr 11 / to-mgr 7 / to-mgr 11 / other ipmb 50 2837430000000000FF / to-mgr 11
premises -> 0 out: phase Undone / .. / records same / premises kept

story schedule 311
board sample effecters lan
swap most = 200 => most = 1000
plan
  retries = 2
  [[step]] / kind = \"bios-attribute\" / handle = 0 / indexes = [1]
  [[step]] / kind = \"lan-param\" / channel = 1 / param = 20 / data = [60, 137]
  [[step]] / kind = \"bios-attribute\" / handle = 0 / indexes = [1]
  [[step]] / kind = \"user-access\" / channel = 1 / user = 2 / limit = 3
  [[step]] / kind = \"boot-param\" / param = 5 / invalid = false / data = [118, 127, 128, 17, 186]
schedule
  quiet / start / to-bmc 0 / noise smbus 200F1031010ABFC801800308000000000100001E / to-mgr 1 / tick / other smbus 12 01810004
  to-bmc 2 / tick / to-mgr 4 / to-bmc 5 / scan 09 E6 / to-mgr 6 / to-mgr 4 / to-bmc 7 / other ipmb 42 1894470201 / tick / to-mgr 8
  to-bmc 10 / noise ipmb 4262A22094470005 / to-mgr 11 / noise ipmb 2C34FA20000200110000CD / to-bmc 12 / to-mgr 13 / to-bmc 14
  to-mgr 15 / to-bmc 16 / to-mgr 17 / to-bmc 18 / noise smbus 300F142101080AC201020308000000000005000000A801DD / to-mgr 19 / to-bmc 20
  to-mgr 21
premises -> 0 out: phase Done / .. / records changed 4 / premises kept
then
  undo / to-mgr 21 / to-bmc 22 / to-bmc 22 / other ipmb 42 287F430000000000FF / to-mgr 23 / quiet / tick / to-mgr 24
  other smbus 12 01810004 / to-bmc 26 / to-bmc 20 / to-mgr 30 / quiet / other smbus 10 01800002 / to-bmc 7 / to-mgr 33 / scan 05 3D
  to-mgr 33 / to-mgr 33 / to-mgr 33 / tick / quiet / other ipmb 40 10E12D05 / again / stop / to-bmc 27 / to-mgr 29 / to-bmc 37
  scan 07 44 / to-mgr 38 / other ipmb 46 18CB01 / scan 05 FE / other smbus 13 018602330400 / to-bmc 39 / to-mgr 4 / scan 09 28
  other smbus 10 018602330400 / quiet / other ipmb 46 30380281000000 / to-bmc 44 / tick / start / to-mgr 46 / to-bmc 47 / to-mgr 48
  quiet / to-mgr 48 / to-mgr 48 / to-mgr 48 / to-bmc 47 / other smbus 10 018602330400
premises -> 0 out: phase Undone / .. / records same / premises kept

story schedule 330
board sample effecters lan
swap most = 200 => most = 1000
plan
  retries = 3
  [[step]] / kind = \"thresholds\" / sensor = 5 / lnr = 7
  [[step]] / kind = \"channel-access\" / channel = 1 / store = \"non-volatile\" / limit = 5
  [[step]] / kind = \"bios-attribute\" / handle = 2 / number = 180
  [[step]] / kind = \"thresholds\" / sensor = 7 / unc = 145 / uc = 71
schedule
  other smbus 12 01800002 / other ipmb 46 108D250500 / quiet / start / to-bmc 2 / to-mgr 3 / tick / quiet / to-bmc 4 / tick
  noise ipmb 4615A5208C250002932B / quiet / quiet / scan 07 52 / quiet / to-bmc 5 / tick / quiet / quiet / other ipmb 40 309E0281000000
  again / to-bmc 7 / noise ipmb 2C14C020042300B6 / to-mgr 6 / other ipmb 40 185F470201 / to-bmc 13 / to-mgr 15
  other smbus 13 01810004 / to-mgr 12 / to-bmc 16 / to-mgr 18 / other ipmb 40 282F4910203040 / to-mgr 18 / to-bmc 19
  other ipmb 46 184399 / to-mgr 21 / to-bmc 23 / to-mgr 24 / to-bmc 25 / scan 05 02 / to-mgr 26 / tick / quiet / to-bmc 23
  idle smbus 12 / to-mgr 29 / to-mgr 29 / to-mgr 29 / to-mgr 29 / idle ipmb 40 / to-mgr 26 / other smbus 10 01800002 / to-mgr 29
  to-mgr 29 / to-mgr 29 / tick / to-mgr 29 / to-mgr 29 / quiet / other smbus 10 018302320501 / quiet
  noise smbus 870F1931010A08C9018103070000000005020003B40000000000000033 / to-bmc 27 / to-mgr 34
premises -> 0 out: phase Halted 3 Refused CC / .. / records changed 3 / premises kept
then
  undo / quiet / to-bmc 35 / to-mgr 37 / undo / to-bmc 38 / to-mgr 39 / idle smbus 12 / to-bmc 40 / quiet / scan 07 36 / to-bmc 42
  to-bmc 40 / to-mgr 41 / to-mgr 43 / tick / quiet / noise ipmb FE18C82C0C4001004542 / to-mgr 41 / to-mgr 44
premises -> 0 out: phase Undone / .. / records same / premises kept

story schedule 351
board sample effecters lan
swap most = 200 => most = 1000
plan
  retries = 3
  [[step]] / kind = \"bios-attribute\" / handle = 1 / text = \"{63*b}\"
  [[step]] / kind = \"bios-attribute\" / handle = 1 / text = \"{200*a}\"
  [[step]] / kind = \"bios-attribute\" / handle = 1 / text = \"{186*d}\"
  [[step]] / kind = \"bios-attribute\" / handle = 1 / text = \"{114*k}\"
  [[step]] / kind = \"bios-attribute\" / handle = 1 / text = \"{175*u}\"
schedule
  other ipmb 44 10282707 / start / to-bmc 1 / tick / tick / to-mgr 2 / to-bmc 3 / to-bmc 4 / to-mgr 5 / to-bmc 3 / to-bmc 6 / to-mgr 7
  to-mgr 8 / to-bmc 9 / to-bmc 10 / to-bmc 11 / to-bmc 12 / to-mgr 13 / to-bmc 9 / to-bmc 14 / idle smbus 10 / idle smbus 12 / to-bmc 3
  to-mgr 15 / to-mgr 16 / to-mgr 17 / scan 09 7E / to-mgr 18 / to-bmc 19 / to-bmc 20 / to-bmc 21 / tick
  other ipmb 40 2807430000000000FF / to-bmc 22 / to-mgr 24 / to-bmc 25 / to-mgr 26 / to-mgr 27 / to-mgr 28 / to-bmc 3 / to-mgr 29
  undo / to-bmc 30 / to-bmc 31 / to-mgr 32 / to-bmc 33 / to-mgr 34 / to-mgr 35 / scan 07 26 / to-mgr 36
  noise smbus 300F0E2101080A7664646464646464647AB0 / to-bmc 37 / to-bmc 38 / to-bmc 39 / to-mgr 40
premises -> 0 out: phase Done / .. / records changed 1 / premises kept
then
  undo / to-bmc 41 / to-bmc 42 / to-mgr 43 / to-bmc 44 / to-bmc 19 / to-bmc 45 / to-bmc 46 / to-bmc 47 / to-mgr 48 / to-bmc 49
  to-bmc 50 / to-bmc 51 / to-bmc 52 / quiet / to-bmc 54 / to-bmc 55 / to-bmc 56 / to-bmc 30 / to-bmc 57 / to-mgr 53 / to-bmc 59
  to-bmc 30 / to-bmc 60 / other smbus 13 01800002 / to-mgr 61 / to-bmc 63 / to-bmc 30 / to-mgr 64 / to-bmc 30 / other smbus 13 01810004
  to-mgr 64 / quiet / idle ipmb 40 / to-mgr 64
premises -> 0 out: phase Undone / .. / records same / premises kept

story schedule 394
board sample effecters lan
swap most = 200 => most = 1000
plan
  retries = 2
  [[step]] / kind = \"thresholds\" / sensor = 5 / lnr = 3 / unc = 82 / unr = 113
  [[step]] / kind = \"event-enable\" / sensor = 5 / messages = true / scanning = false
  select = \"disable\" / assert = [0, 1, 2, 3, 4, 5, 9] / deassert = [0, 2, 4, 5, 8, 10]
  [[step]] / kind = \"global-enables\" / value = 197
  [[step]] / kind = \"hysteresis\" / sensor = 5 / positive = 147 / negative = 157
  [[step]] / kind = \"bios-attribute\" / handle = 1 / text = \"{351*r}\"
schedule
  quiet / start / to-bmc 0 / to-mgr 1 / to-bmc 2 / to-mgr 3 / idle ipmb 44 / tick / to-bmc 4 / to-mgr 5 / noise ipmb 9110D02C0829059E
  to-bmc 6 / to-mgr 7 / quiet / to-bmc 8 / to-mgr 10 / to-bmc 11 / tick / to-bmc 9 / tick / other smbus 13 018302320501 / to-mgr 13
  to-mgr 13
  other smbus 11 7E7E7E7E7E7E7E7E7E7E7E7E7E7E7E7E7E7E7E7E7E7E7E7E7E7E7E7E7E7E7E7E7E7E7E7E7E7E7E7E7E7E7E7E7E7E7E7E7E7E7E7E7E7E7E7E7E7E7E7E7E7E7E7E7E7E7E7E7E7E7E7E7E7E7E7E7E7E7E7E7E7E7E7E7E7E7E7E7E7E7E7E7E7E7E7E7E7E7E7E
  to-mgr 7 / noise ipmb 2018C82C14B6C5CD / quiet / to-bmc 15 / to-mgr 13 / to-mgr 12 / to-bmc 17 / to-mgr 18 / to-bmc 19 / to-mgr 20
  scan 05 2D / to-bmc 21 / to-bmc 21 / scan 05 9A / to-mgr 22 / to-bmc 27
  noise smbus 420F142101130AC001030232000501FFFFFFFF85FFFFFFCC / other smbus 10 01800002 / to-bmc 24 / to-bmc 25
  noise ipmb 2C14C020082900C000D90000ED / scan 07 7B / to-bmc 26 / scan 05 22 / scan 07 BC / to-bmc 27 / to-mgr 29
  other ipmb 42 30FD0281000000 / to-bmc 30 / to-bmc 31 / to-bmc 32 / noise ipmb 2C1C8520102F000899 / to-mgr 34
premises -> 0 out: phase Done / .. / records changed 5 / premises kept
then
  undo / to-bmc 35 / other smbus 11 018202320400 / to-mgr 36 / to-bmc 38 / to-mgr 39 / to-bmc 40 / undo / to-mgr 41 / to-bmc 38
  other ipmb 46 189F99 / to-bmc 11 / to-mgr 16 / quiet / other ipmb 40 28C04400000200000000010203040506070809 / to-bmc 42 / to-mgr 48
  to-bmc 49 / to-mgr 50 / to-mgr 50 / other smbus 13 018202320400 / quiet / to-mgr 50 / scan 05 E2 / to-bmc 46
premises -> 0 out: phase Undone / .. / records same / premises kept
";

#[test]
fn random_schedules_end_as_they_must(rt: HostRuntime) {
    expect_told(&rt, rt.alloc(), RANDOM);
}
