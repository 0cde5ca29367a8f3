//! Command lines: what they ask for, and what their runs write.
use super::expect_told;

/// Runs of whole command lines, over files that are held in memory.
const LINES: &str = r#"story a frame is sent to the board that is named
# The sample board has the sensor; the other one hasn't, and answers CBh.
bmclab frame 2010D02C08260510000000005A0037 -> 0 out: 2C14C020082600B2
board fields device-20h
bmclab frame --board board.toml 2010D02C08260510000000005A0037 -> 0 out: 2C14C0200826CBE7
bmclab frame --board none.toml 2010D02C08260510000000005A0037 -> 3 err: file none.toml
swap id = 0x20 => id = 0x21
bmclab frame --board board.toml 2018C82C0001D3 -> 0 out: 2C1CB820000100210101050207CDAB003412F0
board: tid =
bmclab frame --board board.toml 2010D02C08260510000000005A0037 -> 3 err: board Text
board sample
bmclab frame --board other.toml 2018C82C0001D3 -> 3 err: file other.toml
# Without a word no file is read.
unreadable board
bmclab frame 2018C82C0001D3 -> 0 out: 2C1CB820000100200101050207CDAB003412F1
bmclab frame --board board.toml 2018C82C0001D3 -> 3 err: file board.toml
memory board
bmclab frame --board board.toml 2018C82C0001D3 -> 5 err: memory

story a packet goes to the board that is named
board sample
swap tid = 5 => tid = 9
bmclab frame --bus smbus --board board.toml 200F0931010A08C801800002BE -> 0 out: 300F0B2101080AC001000002000938

story a play is shown as the line says
board sample
plan events
schedule: start
bmclab play board.toml plan.toml schedule.txt -> 0 out: phase Getting 0 / frames 1 / undo 0 / records same
bmclab play --frames board.toml plan.toml schedule.txt -> 0 out
  phase Getting 0 / frames 1 / undo 0 / records same
  frame 0 mgr ipmb 2010D02C002905A6
bmclab play --chart board.toml plan.toml schedule.txt -> 0 out
  event mgr  |comes             sends            |bmc     phase
  1     start|                  ->0 lost         |        Getting 0
bmclab play --chart --restart 1 board.toml plan.toml schedule.txt -> 0 out
  event mgr  |comes             sends            |bmc     phase
  1     start|                  ->0 lost         |        Getting 0
        dies |                                   |        Unsettled 0
bmclab play --restart 1 board.toml plan.toml schedule.txt -> 0 out: phase Unsettled 0 / frames 1 / undo 0 / records same
bmclab play --restart 1,2 board.toml plan.toml schedule.txt -> 2 err: restart 2
bmclab play board.toml schedule.txt plan.toml -> 3 err: plan Text
bmclab play board.toml none.toml none.txt -> 3 err: file none.toml

# The board has neither users nor sensors.
story an empty plan is played, drawn and scheduled
board fields device-20h
schedule: start
lines -> 0 out: phase Done / frames 0 / undo 0 / records same
chart -> 0 out
  event mgr  |comes             sends            |bmc     phase
  1     start|                                   |        Done
bmclab play --frames board.toml plan.toml schedule.txt -> 0 out: phase Done / frames 0 / undo 0 / records same
bmclab play --chart board.toml plan.toml schedule.txt -> 0 out
  event mgr  |comes             sends            |bmc     phase
  1     start|                                   |        Done
bmclab schedule --undo board.toml plan.toml -> 0 out: start / undo

story all files are read before a text is refused
board: tid =
unreadable plan
memory schedule
bmclab play --chart board.toml plan.toml schedule.txt -> 3 err: file plan.toml
memory plan
unreadable schedule
bmclab play --chart board.toml plan.toml schedule.txt -> 5 err: memory
plan events
bmclab play --chart board.toml plan.toml schedule.txt -> 3 err: file schedule.txt
board sample
schedule: begin
bmclab play --chart board.toml plan.toml schedule.txt -> 3 err: schedule Line 1
unreadable board
unreadable plan
unreadable schedule
bmclab play --chart board.toml plan.toml schedule.txt -> 3 err: file board.toml

story files are checked
board sample
plan: retires = 9
schedule: start / quit
bmclab check board.toml -> 0 out: board.toml: board, 2 sensors, 2 users, ..
bmclab check plan.toml -> 1 out
  plan.toml: plan, 0 steps, retries 3
  plan.toml:1: top: unknown key retires, nearest is retries
bmclab check schedule.txt -> 3 out
  schedule.txt: schedule refused, line 2
  schedule.txt:2: quit: no line has the word quit, nearest is quiet
# All are read, in the order of the words, and one that is refused counts most.
bmclab check schedule.txt plan.toml -> 3 out
  schedule.txt: schedule refused, line 2
  schedule.txt:2: quit: no line has the word quit, nearest is quiet
  plan.toml: plan, 0 steps, retries 3
  plan.toml:1: top: unknown key retires, nearest is retries
bmclab check plan.toml none.toml schedule.txt folder locked.toml bytes -> 3 out
  plan.toml: plan, 0 steps, retries 3
  plan.toml:1: top: unknown key retires, nearest is retries
  none.toml: not read, there is no such file
  schedule.txt: schedule refused, line 2
  schedule.txt:2: quit: no line has the word quit, nearest is quiet
  folder: not read, it is a folder
  locked.toml: not read, it may not be read
  bytes: not read, it isn't UTF-8
unreadable plan
bmclab check plan.toml -> 3 out: plan.toml: not read, it can't be read
memory plan
bmclab check board.toml plan.toml -> 5 err: memory
plan
bmclab check plan.toml plan.toml -> 0 out
  plan.toml: empty
  plan.toml: empty
# What a file looks like is told where it is said to be something else.
bmclab check --as plan plan.toml -> 0 out
  plan.toml: plan, 0 steps, retries 3
  plan.toml: it looks like an empty file
bmclab check --as undo plan.toml -> 3 out
  plan.toml: undo text refused, line 1
  plan.toml:1: nothing stands here: undo 1 or undo 2 alone
  plan.toml: it looks like an empty file
# Readings begin with a time.
schedule: 0 scan 05 30 / 4000 tick
bmclab check schedule.txt -> 0 out: schedule.txt: readings, 2 events
bmclab check --as schedule schedule.txt -> 3 out
  schedule.txt: schedule refused, line 1
  schedule.txt:1: 0 scan 05 30: no line has the word 0
  schedule.txt: it looks like readings
schedule: 5 scan 05 30 / 4 tick
bmclab check schedule.txt -> 3 out
  schedule.txt: readings refused, line 2
  schedule.txt:2: 4 tick: MS tick, and MS is no less than in a line above
schedule: 0 scna 05 30
bmclab check schedule.txt -> 3 out
  schedule.txt: readings refused, line 1
  schedule.txt:1: 0 scna 05 30: no line has the word scna, nearest is scan

# The last byte of a frame of IPMB makes the sum of those from the fourth on 0: 2Ch + 00h + 27h + 05h + A8h = 100h. The reply's data are the sample board's.
story a request is asked by its bytes
bmclab ask 04 27 05 -> 0 out
  sent 2010D02C002705A8
  came 2C14C0200027003F140A05505F6E3A
  code 00h completed
  data 3F140A05505F6E
bmclab ask 042705 -> 0 out
  sent 2010D02C002705A8
  came 2C14C0200027003F140A05505F6E3A
  code 00h completed
  data 3F140A05505F6E
bmclab ask 04 27 09 -> 0 out
  sent 2010D02C002709A4
  came 2C14C0200027CBEE
  code CBh not present
bmclab ask --bus smbus 00 02 -> 0 out
  sent 200F0931010A08C801800002BE
  came 300F0B2101080AC00100000200051C
  code 00h success
  data 05
board sample
swap tid = 5 => tid = 9
bmclab ask --bus smbus --board board.toml 00 02 -> 0 out
  sent 200F0931010A08C801800002BE
  came 300F0B2101080AC001000002000938
  code 00h success
  data 09
bmclab ask --board none.toml 04 27 05 -> 3 err: file none.toml
board: tid =
bmclab ask --board board.toml 04 27 05 -> 3 err: board Text
memory board
bmclab ask --board board.toml 04 27 05 -> 5 err: memory

story a frame is explained
bmclab frame --explain 2010D02C002705A8 -> 0 out
    to 20h LUN 0, from 2Ch LUN 0, number 0
    netFn 04h sensor/event, request
    command 27h Get Sensor Thresholds
    data 05
    third byte D0h, right
    last byte A8h, right
  2C14C0200027003F140A05505F6E3A
    to 2Ch LUN 0, from 20h LUN 0, number 0
    netFn 05h sensor/event, reply
    command 27h Get Sensor Thresholds
    code 00h completed
    data 3F 14 0A 05 50 5F 6E
    third byte C0h, right
    last byte 3Ah, right
bmclab frame --explain 2010D02C002705A9 -> 1 out
    to 20h LUN 0, from 2Ch LUN 0, number 0
    netFn 04h sensor/event, request
    command 27h Get Sensor Thresholds
    data 05
    third byte D0h, right
    last byte A9h, wrong: it would be A8h
  ignored BodySum
bmclab frame --explain 2010 -> 1 out
    too short: a frame of IPMB has at least 7 bytes
  ignored Short
bmclab frame --explain --bus smbus 200F0931010A08C801800002BE -> 0 out
    to 20h endpoint 0Ah, from 30h endpoint 08h
    command code 0Fh, count 9, version 1
    first, last packet of a message, number 0, tag 0, its sender's
    PLDM type 0, request, instance 0
    command 02h GetTID
    last byte BEh, right
  300F0B2101080AC00100000200051C
    to 30h endpoint 08h, from 20h endpoint 0Ah
    command code 0Fh, count 11, version 1
    first, last packet of a message, number 0, tag 0, its receiver's
    PLDM type 0, reply, instance 0
    command 02h GetTID
    code 00h success
    data 05
    last byte 1Ch, right
bmclab frame --explain --board none.toml 2018C82C0001D3 -> 3 err: file none.toml

# Upper non-recoverable is 6Eh, so upper critical isn't 70h. No Set brings the watchdog back that was never set.
story plans are tried on a board
board sample
plan: [[step]] / kind = "thresholds" / sensor = 5 / uc = 0x5A / [[step]] / kind = "thresholds" / sensor = 5 / uc = 0x5C / [[step]] / kind = "hysteresis" / sensor = 9 / positive = 1 / negative = 1 / [[step]] / kind = "thresholds" / sensor = 5 / uc = 0x70 / [[step]] / kind = "watchdog" / use = 4 / no_log = false / action = 1 / interrupt = 0 / pre = 10 / initial = 600 / [[step]] / kind = "thresholds" / sensor = 5 / uc = 0x5C
bmclab check --against board.toml plan.toml -> 3 out
  plan.toml: plan, 6 steps, retries 3
  plan.toml: step 0: sensor 5 upper critical: 95 (5Fh) -> 90 (5Ah)
  plan.toml: step 1: sensor 5 upper critical: 90 (5Ah) -> 92 (5Ch)
  plan.toml: step 2: sensor 9 hysteresis: the board hasn't it (CBh not present)
  plan.toml: step 3: sensor 5 upper critical: 112 (70h): would be refused (CCh invalid data field)
  plan.toml: step 4: watchdog timer: can't be taken back
  plan.toml: step 5: sensor 5 thresholds: no change
# By the tables of commands: an unknown user or channel and a channel without LAN parameters give CCh, an unknown attribute 88h, an unknown effecter 80h, and a
# value that an attribute can't have 02h: the third attribute has steps of 10 from 0, and is 30.
plan: [[step]] / kind = "user-name" / user = 9 / name = "eve" / [[step]] / kind = "channel-access" / channel = 9 / store = "volatile" / limit = 4 / [[step]] / kind = "bios-attribute" / handle = 9 / number = 1 / [[step]] / kind = "bios-attribute" / handle = 2 / number = 35 / [[step]] / kind = "bios-attribute" / handle = 2 / number = 40 / [[step]] / kind = "lan-param" / channel = 1 / param = 4 / data = [2] / [[step]] / kind = "numeric-effecter" / effecter = 3 / size = 0 / value = 1
bmclab check --against board.toml plan.toml -> 3 out
  plan.toml: plan, 7 steps, retries 3
  plan.toml: step 0: user 9 name: the board hasn't it (CCh invalid data field)
  plan.toml: step 1: channel 9 volatile access: the board hasn't it (CCh invalid data field)
  plan.toml: step 2: attribute 9: the board hasn't it (88h particular to a command)
  plan.toml: step 3: attribute 2 ("Delay"): 35: would be refused (02h invalid data)
  plan.toml: step 4: attribute 2 ("Delay"): 30 -> 40
  plan.toml: step 5: LAN parameter 4 of channel 1: the board hasn't it (CCh invalid data field)
  plan.toml: step 6: numeric effecter 3: the board hasn't it (80h particular to a command)
plan: [[step]] / kind = "thresholds" / sensor = 5 / uc = 0x5A
bmclab check --against board.toml plan.toml plan.toml -> 0 out
  plan.toml: plan, 1 step, retries 3
  plan.toml: step 0: sensor 5 upper critical: 95 (5Fh) -> 90 (5Ah)
  plan.toml: plan, 1 step, retries 3
  plan.toml: step 0: sensor 5 upper critical: 95 (5Fh) -> 90 (5Ah)
bmclab check --against board.toml plan.toml none.toml -> 3 out
  plan.toml: plan, 1 step, retries 3
  plan.toml: step 0: sensor 5 upper critical: 95 (5Fh) -> 90 (5Ah)
  none.toml: not read, there is no such file
plan: retries = 64
bmclab check --against board.toml plan.toml -> 3 out
  plan.toml: plan refused, Range: table top, field retries
  plan.toml:1: top: retries = 64: a number from 0 to 15
plan: retires = 9
bmclab check --against board.toml plan.toml -> 1 out
  plan.toml: plan, 0 steps, retries 3
  plan.toml:1: top: unknown key retires, nearest is retries
bmclab check --against none.toml plan.toml -> 3 out: none.toml: not read, there is no such file
memory board
bmclab check --against board.toml plan.toml -> 5 err: memory
board sample
memory plan
bmclab check --against board.toml plan.toml -> 5 err: memory

# The sensor's record is a compact one, and its id string has ten bytes of ASCII (IPMI 2.0, type/length byte CAh). An attribute's name may have any character.
story against a board the names that it gives are said
board sample
swap sdr = ["010051C00100"] => sdr = ["01005102252000050000000000000000000000000000000000000000000000CA496E6C65742054656D70"]
swap name = "Delay" => name = "D\u00E9lai \"2\""
plan: [[step]] / kind = "thresholds" / sensor = 5 / uc = 0x5A / [[step]] / kind = "thresholds" / sensor = 5 / uc = 0x70 / [[step]] / kind = "thresholds" / sensor = 5 / uc = 0x5A / [[step]] / kind = "event-enable" / sensor = 5 / messages = true / scanning = true / select = "leave" / [[step]] / kind = "hysteresis" / sensor = 7 / positive = 1 / negative = 1 / [[step]] / kind = "hysteresis" / sensor = 9 / positive = 1 / negative = 1 / [[step]] / kind = "bios-attribute" / handle = 2 / number = 40 / [[step]] / kind = "power-policy" / policy = 2
bmclab check --against board.toml plan.toml -> 3 out
  plan.toml: plan, 8 steps, retries 3
  plan.toml: step 0: sensor 5 ("Inlet Temp") upper critical: 95 (5Fh) -> 90 (5Ah)
  plan.toml: step 1: sensor 5 ("Inlet Temp") upper critical: 112 (70h): would be refused (CCh invalid data field)
  plan.toml: step 2: sensor 5 ("Inlet Temp") thresholds: no change
  plan.toml: step 3: sensor 5 ("Inlet Temp") event enable: no change
  plan.toml: step 4: sensor 7 positive-going hysteresis: 0 (00h) -> 1 (01h); negative-going hysteresis: 0 (00h) -> 1 (01h)
  plan.toml: step 5: sensor 9 hysteresis: the board hasn't it (CBh not present)
  plan.toml: step 6: attribute 2 ("D\xC3\xA9lai \x222\x22"): 30 -> 40
  plan.toml: step 7: power restore policy: previous -> always on
# A sensor that a record names, and that isn't there, has its name, too.
swap 252000050000 => 252000090000
plan: [[step]] / kind = "hysteresis" / sensor = 9 / positive = 1 / negative = 1
bmclab check --against board.toml plan.toml -> 3 out
  plan.toml: plan, 1 step, retries 3
  plan.toml: step 0: sensor 9 ("Inlet Temp") hysteresis: the board hasn't it (CBh not present)

story a board and a plan in each other's place are told
board: # A remark. / [[step]] / kind = "power-policy" / policy = 2 / [[step]] / kind = "power-policy" / policy = 1
plan sample
bmclab check --against board.toml plan.toml -> 3 out
  board.toml: board refused, Missing: table top, field tid
  board.toml: top: lacks tid: a number from 0 to 255
  board.toml:2: top: unknown key step
  board.toml: it looks like a plan
board sample
bmclab check --against board.toml plan.toml -> 1 out
  plan.toml: plan, 0 steps, retries 3
  ..
  plan.toml: it looks like a board file
plan: start
bmclab check --against board.toml plan.toml -> 3 out
  plan.toml: plan refused, ..
  plan.toml: it looks like a schedule
board: tid =
bmclab check --against board.toml plan.toml -> 3 out: board.toml: board refused, TOML parse error at line 1, column 6: ..

story the version is a word of its own
bmclab version -> 0 out: version 0.3.0

story a line that asks for nothing says why
bmclab -> 2 err
  error: 'bmclab' requires a subcommand but one was not provided
    [subcommands: frame, ask, play, schedule, check, version, help] /  / Usage: bmclab <COMMAND> /  / For more information, try '--help'.
bmclab frmae 20 -> 2 err
  error: unrecognized subcommand 'frmae' /  /   tip: a similar subcommand exists: 'frame' /  / Usage: bmclab <COMMAND> /  / For more information, try '--help'.
bmclab --version -> 2 err
  error: unexpected argument '--version' found /  / Usage: bmclab <COMMAND> /  / For more information, try '--help'.
bmclab version 1 -> 2 err
  error: unexpected argument '1' found /  / Usage: bmclab version /  / For more information, try '--help'.
bmclab -V -> 2 err
  error: unexpected argument '-V' found /  / Usage: bmclab <COMMAND> /  / For more information, try '--help'.
bmclab frame -> 2 err
  error: the following required arguments were not provided:
    <HEX> /  / Usage: bmclab frame <HEX> /  / For more information, try '--help'.
bmclab frame '' -> 2 err
  error: invalid value '' for '<HEX>': two hexadecimal digits for each byte, without spaces and without 0x /  / Usage: bmclab frame [OPTIONS] <HEX> /  / For more information, try '--help'.
bmclab frame --buss smbus 2018 -> 2 err
  error: unexpected argument '--buss' found /  /   tip: a similar argument exists: '--bus' /  / Usage: bmclab frame --bus <BUS> <HEX> /  / For more information, try '--help'.
bmclab frame --bus i2c 2018 -> 2 err
  error: invalid value 'i2c' for '--bus <BUS>'
    [possible values: ipmb, smbus] /  / Usage: bmclab frame [OPTIONS] <HEX> /  / For more information, try '--help'.
bmclab frame --bus -> 2 err
  error: a value is required for '--bus <BUS>' but none was supplied /  / For more information, try '--help'.
bmclab frame --board a --board b 20 -> 2 err
  error: the argument '--board <FILE>' cannot be used multiple times /  / Usage: bmclab frame [OPTIONS] <HEX> /  / For more information, try '--help'.
bmclab frame 2018 2018 -> 2 err
  error: unexpected argument '2018' found /  / Usage: bmclab frame [OPTIONS] <HEX> /  / For more information, try '--help'.
bmclab frame 2018C82C0001D -> 2 err
  error: invalid value '2018C82C0001D' for '<HEX>': two hexadecimal digits for each byte, without spaces and without 0x /  / Usage: bmclab frame [OPTIONS] <HEX> /  / For more information, try '--help'.
bmclab frame 20~18~C8~2C~00~01~D3 -> 2 err
  error: invalid value '20 18 C8 2C 00 01 D3' for '<HEX>': two hexadecimal digits for each byte, without spaces and without 0x /  / Usage: bmclab frame [OPTIONS] <HEX> /  / For more information, try '--help'.
bmclab frame 0x2018 -> 2 err
  error: invalid value '0x2018' for '<HEX>': two hexadecimal digits for each byte, without spaces and without 0x /  / Usage: bmclab frame [OPTIONS] <HEX> /  / For more information, try '--help'.
bmclab play sample.toml -> 2 err
  error: the following required arguments were not provided:
    <PLAN>
    <SCHEDULE> /  / Usage: bmclab play <BOARD> <PLAN> <SCHEDULE> /  / For more information, try '--help'.
bmclab play --chart --frames a b c -> 2 err
  error: the argument '--frames' cannot be used with '--chart' /  / Usage: bmclab play [OPTIONS] <BOARD> <PLAN> <SCHEDULE> /  / For more information, try '--help'.
bmclab play --chart --premises a b c -> 2 err
  error: the argument '--premises' cannot be used with '--chart' /  / Usage: bmclab play [OPTIONS] <BOARD> <PLAN> <SCHEDULE> /  / For more information, try '--help'.
bmclab play --chart --list a b c -> 2 err
  error: the argument '--list' cannot be used with '--chart' /  / Usage: bmclab play [OPTIONS] <BOARD> <PLAN> <SCHEDULE> /  / For more information, try '--help'.
bmclab play --restart 7,3 a b c -> 2 err
  error: invalid value '7,3' for '--restart <PLACES>': decimal numbers from 1, each above the one before it, with a comma between two /  / Usage: bmclab play [OPTIONS] <BOARD> <PLAN> <SCHEDULE> /  / For more information, try '--help'.
bmclab play --frames=yes a b c -> 2 err
  error: unexpected value 'yes' for '--frames' found; no more were expected /  / Usage: bmclab play --frames <BOARD> <PLAN> <SCHEDULE> /  / For more information, try '--help'.
bmclab play a b c d -> 2 err
  error: unexpected argument 'd' found /  / Usage: bmclab play [OPTIONS] <BOARD> <PLAN> <SCHEDULE> /  / For more information, try '--help'.
bmclab check -> 2 err
  error: the following required arguments were not provided:
    <FILE>... /  / Usage: bmclab check <FILE>... /  / For more information, try '--help'.
bmclab check --as boards a -> 2 err
  error: invalid value 'boards' for '--as <FORM>' /   [possible values: board, plan, undo, journal, readings, schedule] /  / Usage: bmclab check [OPTIONS] <FILE>... /  / For more information, try '--help'.
bmclab check --as plan --against b a -> 2 err
  error: the argument '--as <FORM>' cannot be used with '--against <BOARD>' /  / Usage: bmclab check [OPTIONS] <FILE>... /  / For more information, try '--help'.
bmclab ask -> 2 err
  error: the following required arguments were not provided:
    <BYTE>... /  / Usage: bmclab ask <BYTE>... /  / For more information, try '--help'.
bmclab ask --bus i2c 04 27 05 -> 2 err
  error: invalid value 'i2c' for '--bus <BUS>'
    [possible values: ipmb, smbus] /  / Usage: bmclab ask [OPTIONS] <BYTE>... /  / For more information, try '--help'.
bmclab ask 05 27 05 -> 2 err
  error: invalid value for '<BYTE>...': NETFN COMMAND DATA.., where NETFN is even and below 40, with at most 25 bytes of data; with --bus smbus TYPE COMMAND DATA.., where TYPE is below 40, with at most 252; two hexadecimal digits for each byte, without 0x /  / Usage: bmclab ask [OPTIONS] <BYTE>... /  / For more information, try '--help'.
bmclab check --all a -> 2 err
  error: unexpected argument '--all' found /  /   tip: to pass '--all' as a value, use '-- --all' /  / Usage: bmclab check [OPTIONS] <FILE>... /  / For more information, try '--help'.

story a request for help is refused, and helped
bmclab --help -> 2 err
  Sends frames to a modelled board controller, plays plans on it and takes them back, writes schedules, and checks files /  / Usage: bmclab <COMMAND> /  / Commands:
    frame     Sends one frame to a fresh controller, and prints what it sends back
    ask       Sends one request to a fresh controller, and prints its frames, the reply's code by name and its data
    play      Plays a plan on a board, over buses that lose, repeat and delay frames
    schedule  Writes a schedule of a plan on a board: a clean one, or one that is drawn
    check     Tells what files hold, where a fault is, and which keys nothing reads
    version   Prints the version
    help      Print this message or the help of the given subcommand(s) /  / Options:
    -h, --help  Print help /  / Examples:
    bmclab frame 2018C82C0001D3
    bmclab ask 04 27 05
    bmclab play sample.toml examples/clean/plan.toml examples/clean/schedule.txt
    bmclab schedule --undo sample.toml examples/clean/plan.toml
    bmclab check sample.toml examples/clean/plan.toml examples/clean/schedule.txt
bmclab -h -> 2 err
  Sends frames to a modelled board controller, plays plans on it and takes them back, writes schedules, and checks files /  / Usage: bmclab <COMMAND> /  / Commands:
    frame     Sends one frame to a fresh controller, and prints what it sends back
    ask       Sends one request to a fresh controller, and prints its frames, the reply's code by name and its data
    play      Plays a plan on a board, over buses that lose, repeat and delay frames
    schedule  Writes a schedule of a plan on a board: a clean one, or one that is drawn
    check     Tells what files hold, where a fault is, and which keys nothing reads
    version   Prints the version
    help      Print this message or the help of the given subcommand(s) /  / Options:
    -h, --help  Print help /  / Examples:
    bmclab frame 2018C82C0001D3
    bmclab ask 04 27 05
    bmclab play sample.toml examples/clean/plan.toml examples/clean/schedule.txt
    bmclab schedule --undo sample.toml examples/clean/plan.toml
    bmclab check sample.toml examples/clean/plan.toml examples/clean/schedule.txt
bmclab help -> 2 err
  Sends frames to a modelled board controller, plays plans on it and takes them back, writes schedules, and checks files /  / Usage: bmclab <COMMAND> /  / Commands:
    frame     Sends one frame to a fresh controller, and prints what it sends back
    ask       Sends one request to a fresh controller, and prints its frames, the reply's code by name and its data
    play      Plays a plan on a board, over buses that lose, repeat and delay frames
    schedule  Writes a schedule of a plan on a board: a clean one, or one that is drawn
    check     Tells what files hold, where a fault is, and which keys nothing reads
    version   Prints the version
    help      Print this message or the help of the given subcommand(s) /  / Options:
    -h, --help  Print help /  / Examples:
    bmclab frame 2018C82C0001D3
    bmclab ask 04 27 05
    bmclab play sample.toml examples/clean/plan.toml examples/clean/schedule.txt
    bmclab schedule --undo sample.toml examples/clean/plan.toml
    bmclab check sample.toml examples/clean/plan.toml examples/clean/schedule.txt
bmclab frame --help -> 2 err
  Sends one frame to a fresh controller, and prints what it sends back /  / Usage: bmclab frame [OPTIONS] <HEX> /  / Arguments:
    <HEX>  The frame, as in 2018C82C0001D3: two hexadecimal digits for each byte, without spaces and without 0x /  / Options:
        --explain       Says what the frame and its replies say, part by part, and what a wrong check byte would be
        --bus <BUS>     The bus, as in --bus smbus:
                        ipmb   the frame is one of IPMB; so it is where no bus is named
                        smbus  it is a packet of MCTP
        --board <FILE>  The board file, as in --board sample.toml; the sample board where none is named
    -h, --help          Print help /  / Examples:
    bmclab frame 2018C82C0001D3
    bmclab frame --bus smbus --board sample.toml 200F0931010A08C801800002BE
    bmclab frame --explain 2010D02C002705A8
bmclab help frame -> 2 err
  Sends one frame to a fresh controller, and prints what it sends back /  / Usage: bmclab frame [OPTIONS] <HEX> /  / Arguments:
    <HEX>  The frame, as in 2018C82C0001D3: two hexadecimal digits for each byte, without spaces and without 0x /  / Options:
        --explain       Says what the frame and its replies say, part by part, and what a wrong check byte would be
        --bus <BUS>     The bus, as in --bus smbus:
                        ipmb   the frame is one of IPMB; so it is where no bus is named
                        smbus  it is a packet of MCTP
        --board <FILE>  The board file, as in --board sample.toml; the sample board where none is named
    -h, --help          Print help /  / Examples:
    bmclab frame 2018C82C0001D3
    bmclab frame --bus smbus --board sample.toml 200F0931010A08C801800002BE
    bmclab frame --explain 2010D02C002705A8
bmclab play --help -> 2 err
  Plays a plan on a board, over buses that lose, repeat and delay frames /  / Usage: bmclab play [OPTIONS] <BOARD> <PLAN> <SCHEDULE> /  / Arguments:
    <BOARD>     The board file, as sample.toml
    <PLAN>      The plan, as examples/clean/plan.toml
    <SCHEDULE>  The schedule: what comes when, as examples/clean/schedule.txt /  / Options:
        --frames            Prints each frame, too, as in frame 0 mgr ipmb 2010D02C002905A6
        --premises          Prints the first event at which a packet joined one that had waited too long, or premises kept
        --chart             Draws the play in place of its lines
        --explain           Says on standard error where the plan halts and why, and in which line of the schedule; it does so unasked where that is a terminal
        --list              Prints each record that changed, too, as in sensor 5 upper critical: 95 (5Fh) -> 90 (5Ah)
        --strict            Ends with a status of 10 to 13 where a plan halted, a request isn't settled, an undo was refused or records changed, and refuses a file with a key that nothing reads
        --restart <PLACES>  Ends the manager's process behind these events and makes it anew of its journal, as in --restart 3,7
    -h, --help              Print help /  / Examples:
    bmclab play sample.toml examples/clean/plan.toml examples/clean/schedule.txt
    bmclab play --frames sample.toml examples/clean/plan.toml examples/clean/schedule.txt
    bmclab play --premises sample.toml examples/clean/plan.toml examples/clean/schedule.txt
    bmclab play --chart sample.toml examples/clean/plan.toml examples/clean/schedule.txt
    bmclab play --explain sample.toml examples/refused/plan.toml examples/refused/schedule.txt
    bmclab play --strict --list sample.toml examples/clean/plan.toml examples/clean/schedule.txt
    bmclab play --restart 4 sample.toml examples/set_unheard/plan.toml examples/set_unheard/schedule.txt
bmclab version --help -> 2 err
  Prints the version /  / Usage: bmclab version /  / Options:
    -h, --help  Print help /  / Examples:
    bmclab version
bmclab check --help -> 2 err
  Tells what files hold, where a fault is, and which keys nothing reads /  / Usage: bmclab check [OPTIONS] <FILE>... /  / Arguments:
    <FILE>...  The files: board files, plans, schedules, undo texts, journals and readings /  / Options:
        --as <FORM>        What the files are, as in --as plan: board, plan, undo, journal, readings or schedule; what they look like where it isn't named
        --against <BOARD>  The board file of a board on which each step of the files, which are plans, is tried, as in --against sample.toml
    -h, --help             Print help /  / Examples:
    bmclab check sample.toml
    bmclab check sample.toml examples/clean/plan.toml examples/clean/schedule.txt
    bmclab check --as plan examples/clean/plan.toml
    bmclab check --against sample.toml examples/clean/plan.toml
bmclab play -h a b c -> 2 err
  Plays a plan on a board, over buses that lose, repeat and delay frames /  / Usage: bmclab play [OPTIONS] <BOARD> <PLAN> <SCHEDULE> /  / Arguments:
    <BOARD>     The board file, as sample.toml
    <PLAN>      The plan, as examples/clean/plan.toml
    <SCHEDULE>  The schedule: what comes when, as examples/clean/schedule.txt /  / Options:
        --frames            Prints each frame, too, as in frame 0 mgr ipmb 2010D02C002905A6
        --premises          Prints the first event at which a packet joined one that had waited too long, or premises kept
        --chart             Draws the play in place of its lines
        --explain           Says on standard error where the plan halts and why, and in which line of the schedule; it does so unasked where that is a terminal
        --list              Prints each record that changed, too, as in sensor 5 upper critical: 95 (5Fh) -> 90 (5Ah)
        --strict            Ends with a status of 10 to 13 where a plan halted, a request isn't settled, an undo was refused or records changed, and refuses a file with a key that nothing reads
        --restart <PLACES>  Ends the manager's process behind these events and makes it anew of its journal, as in --restart 3,7
    -h, --help              Print help /  / Examples:
    bmclab play sample.toml examples/clean/plan.toml examples/clean/schedule.txt
    bmclab play --frames sample.toml examples/clean/plan.toml examples/clean/schedule.txt
    bmclab play --premises sample.toml examples/clean/plan.toml examples/clean/schedule.txt
    bmclab play --chart sample.toml examples/clean/plan.toml examples/clean/schedule.txt
    bmclab play --explain sample.toml examples/refused/plan.toml examples/refused/schedule.txt
    bmclab play --strict --list sample.toml examples/clean/plan.toml examples/clean/schedule.txt
    bmclab play --restart 4 sample.toml examples/set_unheard/plan.toml examples/set_unheard/schedule.txt
"#;

/// What the words ask for.
const ASKS: &str = "story the bus is the one that is named
asks bmclab frame 2018 -> ipmb 2018
asks bmclab frame --bus ipmb 2018 -> ipmb 2018
asks bmclab frame --bus smbus 2018 -> smbus 2018
asks bmclab frame --bus=smbus 2018 -> smbus 2018
asks bmclab frame 2018 --bus smbus -> smbus 2018
asks bmclab frame --bus ipmb 00 -> ipmb 00
asks bmclab frame --bus smbus C8aB -> smbus C8AB

story the board file is the one that is named
asks bmclab frame --board sample.toml 2018 -> ipmb 2018 sample.toml
asks bmclab frame --board=sample.toml 2018 -> ipmb 2018 sample.toml
asks bmclab frame 2018 --board sample.toml -> ipmb 2018 sample.toml
asks bmclab frame --bus ipmb --board sample.toml 2018 -> ipmb 2018 sample.toml

story a play names its files in their order
asks bmclab play sample.toml plan.toml schedule.txt -> lines sample.toml plan.toml schedule.txt
asks bmclab play --frames sample.toml plan.toml schedule.txt -> frames sample.toml plan.toml schedule.txt
asks bmclab play sample.toml plan.toml schedule.txt --frames -> frames sample.toml plan.toml schedule.txt
asks bmclab play sample.toml --frames plan.toml schedule.txt -> frames sample.toml plan.toml schedule.txt
asks bmclab play -- sample.toml plan.toml schedule.txt -> lines sample.toml plan.toml schedule.txt
asks bmclab play --premises sample.toml plan.toml schedule.txt -> premises sample.toml plan.toml schedule.txt
asks bmclab play --premises --frames sample.toml plan.toml schedule.txt -> frames and premises sample.toml plan.toml schedule.txt
asks bmclab play --chart sample.toml plan.toml schedule.txt -> chart sample.toml plan.toml schedule.txt
asks bmclab play sample.toml plan.toml schedule.txt --chart -> chart sample.toml plan.toml schedule.txt
asks bmclab play --restart 3 sample.toml plan.toml schedule.txt -> lines sample.toml plan.toml schedule.txt restart 3
asks bmclab play --chart --restart 1,2,10 sample.toml plan.toml schedule.txt -> chart sample.toml plan.toml schedule.txt restart 1 2 10
asks bmclab play --strict sample.toml plan.toml schedule.txt -> lines strict sample.toml plan.toml schedule.txt
asks bmclab play --list --frames sample.toml plan.toml schedule.txt -> frames listed sample.toml plan.toml schedule.txt
asks bmclab play --list --strict --explain sample.toml plan.toml schedule.txt -> lines explained strict and listed sample.toml plan.toml schedule.txt
asks bmclab play --chart --strict sample.toml plan.toml schedule.txt -> chart strict sample.toml plan.toml schedule.txt
asks bmclab play sample.toml plan.toml schedule.txt --restart=3,7 -> lines sample.toml plan.toml schedule.txt restart 3 7

story a check names its files in their order
asks bmclab check plan.toml -> check plan.toml
asks bmclab check sample.toml plan.toml schedule.txt undo.txt -> check sample.toml plan.toml schedule.txt undo.txt
asks bmclab check plan.toml plan.toml -> check plan.toml plan.toml
asks bmclab check --as board plan.toml -> check plan.toml
asks bmclab check -- --frames -> check --frames

story a plan is checked against a board
asks bmclab check --against sample.toml plan.toml -> check against sample.toml plan.toml
asks bmclab check plan.toml other.toml --against sample.toml -> check against sample.toml plan.toml other.toml
asks bmclab check --against sample.toml -> refused
asks bmclab check --as plan --against sample.toml plan.toml -> refused

story a request is named by its bytes
asks bmclab ask 04 27 05 -> ask ipmb 042705
asks bmclab ask 04 2705 -> ask ipmb 042705
asks bmclab ask 06 01 -> ask ipmb 0601
asks bmclab ask --bus smbus 3F 02 0a -> ask smbus 3F020A
asks bmclab ask --board sample.toml 0601 -> ask ipmb 0601 sample.toml
asks bmclab frame --explain 2018 -> ipmb 2018 explained
asks bmclab ask 04 -> refused
asks bmclab ask 05 27 -> refused
asks bmclab ask 40 27 -> refused
asks bmclab ask 4 27 -> refused
asks bmclab ask 0x04 27 -> refused
asks bmclab ask --bus smbus 40 02 -> refused
asks bmclab ask --bus can 04 27 -> refused
asks bmclab ask 04 27 000000000000000000000000000000000000000000000000 00 -> ask ipmb 042700000000000000000000000000000000000000000000000000
asks bmclab ask 04 27 000000000000000000000000000000000000000000000000 0000 -> refused
asks bmclab ask -> refused

story the version is asked for by one word
asks bmclab version -> version
asks bmclab -- version -> refused

story other lines are refused
asks bmclab version --frames -> refused
asks bmclab version version -> refused
asks bmclab check -> refused
asks bmclab check --frames plan.toml -> refused
asks bmclab check --as readme plan.toml -> refused
asks bmclab check --as board -> refused
asks bmclab check --as board --as plan plan.toml -> refused
asks bmclab check --help -> refused
asks bmclab -> refused
asks bmclab frame -> refused
asks bmclab frame --bus can 2018 -> refused
asks bmclab frame --bus -> refused
asks bmclab frame --board -> refused
asks bmclab frame --board sample.toml -> refused
asks bmclab frame --board sample.toml --board sample.toml 2018 -> refused
asks bmclab frame --board sample.toml 201 -> refused
asks bmclab frame 2018 2018 -> refused
asks bmclab frame --lun 0 2018 -> refused
asks bmclab send 2018 -> refused
asks bmclab play -> refused
asks bmclab play sample.toml plan.toml -> refused
asks bmclab play --frames sample.toml plan.toml -> refused
asks bmclab play sample.toml plan.toml schedule.txt undo -> refused
asks bmclab play sample.toml plan.toml schedule.txt undo again -> refused
asks bmclab play --frames sample.toml plan.toml schedule.txt undo -> refused
asks bmclab play --frames --premises sample.toml plan.toml schedule.txt undo -> refused
asks bmclab frame --bus smbus --board sample.toml 2018 2018 -> refused
asks bmclab play --frames --frames sample.toml plan.toml schedule.txt -> refused
asks bmclab play --frames=yes sample.toml plan.toml schedule.txt -> refused
asks bmclab play --chart --frames sample.toml plan.toml schedule.txt -> refused
asks bmclab play --frames sample.toml plan.toml schedule.txt --chart -> refused
asks bmclab play --chart --premises sample.toml plan.toml schedule.txt -> refused
asks bmclab play --chart --frames --premises sample.toml plan.toml schedule.txt -> refused
asks bmclab play --chart --list sample.toml plan.toml schedule.txt -> refused
asks bmclab play --strict --strict sample.toml plan.toml schedule.txt -> refused
asks bmclab play --chart --chart sample.toml plan.toml schedule.txt -> refused
asks bmclab play --chart sample.toml plan.toml -> refused
asks bmclab play --restart 0 sample.toml plan.toml schedule.txt -> refused
asks bmclab play --restart 3,3 sample.toml plan.toml schedule.txt -> refused
asks bmclab play --restart 7,3 sample.toml plan.toml schedule.txt -> refused
asks bmclab play --restart 3, sample.toml plan.toml schedule.txt -> refused
asks bmclab play --restart ,3 sample.toml plan.toml schedule.txt -> refused
asks bmclab play --restart 03 sample.toml plan.toml schedule.txt -> refused
asks bmclab play --restart +3 sample.toml plan.toml schedule.txt -> refused
asks bmclab play --restart 4294967296 sample.toml plan.toml schedule.txt -> refused
asks bmclab play --restart 3 --restart 7 sample.toml plan.toml schedule.txt -> refused
asks bmclab play --board sample.toml plan.toml schedule.txt -> refused
asks bmclab frame --frames 2018 -> refused
asks bmclab frame --chart 2018 -> refused
asks bmclab play --help -> refused
asks bmclab help -> refused
asks bmclab --help -> refused

story a bus or bytes that are none are refused
asks bmclab frame --bus '' 2018 -> refused
asks bmclab frame --bus IPMB 2018 -> refused
asks bmclab frame --bus smbus~ 2018 -> refused
asks bmclab frame '' -> refused
asks bmclab frame 201 -> refused
asks bmclab frame 20~18 -> refused
asks bmclab frame 2G -> refused
asks bmclab frame --bus smbus 0x20 -> refused
";

#[test]
fn a_run_does_what_its_line_asks_for(rt: HostRuntime) {
    expect_told(&rt, rt.alloc(), LINES);
    expect_told(&rt, rt.alloc(), ASKS);
}
