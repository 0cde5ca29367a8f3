//! A board file and a plan in which all is wrong. The faults come in the order of the tables of both formats, as each is mended, one after
//! the other: in each table first all that are missing, then those of another type, then those out of their ranges.
use super::expect_told;

/// A board file that lacks each field, but for five that are of another type, and a plan whose own fields are of other types: what the
/// fault of each is, until a line is mended.
const MENDED: &str = r#"
file board
+ # tid
+ # clock
+ # log
+ # enables
+ # policy
+ # users
+ # watchdog
+ # boot3
+ # boot4
+ # boot5
+ # sdr
+ # device
+ sensor = 1
+ channel = 1
+ attribute = 1
+ state = 1
+ numeric = 1
+ # items

# The file's own fields: all that are missing, then those of another type, then those out of their ranges.
until # tid -> tid = true => Missing top tid
until # clock -> clock = 0.5 => Missing top clock
until # log -> log = [2] => Missing top log
until # enables -> enables = true => Missing top enables
until # policy -> policy = "1" => Missing top policy
until # users -> users = "" => Missing top users
until # watchdog -> watchdog = 0 => Missing top watchdog
until # boot3 -> boot3 = [0] => Missing top boot3
until # boot4 -> boot4 = [0] => Missing top boot4
until # boot5 -> boot5 = 0 => Missing top boot5
until # sdr -> sdr = 1 => Missing top sdr
until # device -> device = 1 => Missing top device
until tid = true -> tid = 256 => WrongType top tid
until clock = 0.5 -> clock = -1 => WrongType top clock
until log = [2] -> log = 1025 => WrongType top log
until enables = true -> enables = 0x10 => WrongType top enables
until policy = "1" -> policy = 4 => WrongType top policy
until users = "" -> users = [] => WrongType top users
until watchdog = 0 -> watchdog = [6, 0, 0, 0] => WrongType top watchdog
until boot3 = [0] -> boot3 = 32 => WrongType top boot3
until boot4 = [0] -> boot4 = 256 => WrongType top boot4
until boot5 = 0 -> boot5 = [0] => WrongType top boot5
until sdr = 1 -> sdr = ["00"] => WrongType top sdr
until device = 1 -> device.other = 1\n# id\n# revision\n# major\n# minor\n# support\n# manufacturer\n# product => WrongType top device
until sensor = 1 -> sensor = [<33:{}, >] => WrongType top sensor
until channel = 1 -> channel = [<9:{}, >] => WrongType top channel
until attribute = 1 -> attribute = [<65:{}, >] => WrongType top attribute
until state = 1 -> state = [<33:{}, >] => WrongType top state
until numeric = 1 -> numeric = [<33:{}, >] => WrongType top numeric
until tid = 256 -> tid = 5 => Range top tid
until clock = -1 -> clock = 0 => Range top clock
until log = 1025 -> log = 2 => Range top log
until enables = 0x10 -> enables = 0x08 => Range top enables
until policy = 4 -> policy = 1 => Range top policy
until users = [] -> users = ["", "admin"] => Range top users
until watchdog = [6, 0, 0, 0] -> watchdog = [0, 0, 0, 0] => Range top watchdog
until boot3 = 32 -> boot3 = 0 => Range top boot3
until boot4 = 256 -> boot4 = 0 => Range top boot4
until boot5 = [0] -> boot5 = [0, 0, 0, 0, 0] => Range top boot5
until sdr = ["00"] -> sdr = ["010051C000", "010051C000"] => Range top sdr
until sensor = [<33:{}, >] -> # no sensor => Range top sensor
until channel = [<9:{}, >] -> # no channel => Range top channel
until attribute = [<65:{}, >] -> # no attribute => Range top attribute
until state = [<33:{}, >] -> # no state => Range top state
until numeric = [<33:{}, >] -> # no numeric => Range top numeric

# Two sensor data records with one id. Items that lack all come, and behind them others that have the number or the id of the one before.
until # items -> [[sensor]]\n# sensor number\n# sensor type\n# sensor readable\n# sensor settable\n# sensor thresholds\n# sensor hysteresis\n# sensor supported\n# sensor flags\n# sensor assert\n# sensor deassert\n# items => Twice top sdr
until # items -> [[sensor]]\nnumber = 5 # again\ntype = 1\nreadable = 0x3F\nsettable = 0x3F\nthresholds = [20, 10, 5, 80, 95, 110]\nhysteresis = [3, 1]\nsupported = 0xFFF\nflags = 0xC0\nassert = 0x200\ndeassert = 0\n# items => Twice top sdr
until # items -> [[channel]]\n# channel number\n# channel sessions\n# channel access\n# channel limit\n# channel users\n# items => Twice top sdr
until # items -> [[channel]]\nnumber = 1 # again\nsessions = true\naccess = [2, 2]\nlimit = [4, 4]\nusers = [0x14, 0x14]\n# items => Twice top sdr
until # items -> [[attribute]]\n# attribute 0 name\n# attribute 0 kind\n# attribute 0 values\n# attribute 0 default\n# attribute 0 current\n# attribute 0 readonly\n# items => Twice top sdr
until # items -> [[attribute]]\n# attribute 1 name\n# attribute 1 kind\n# attribute 1 string_type\n# attribute 1 least\n# attribute 1 most\n# attribute 1 default\n# attribute 1 current\n# attribute 1 readonly\n# items => Twice top sdr
until # items -> [[attribute]]\n# attribute 2 name\n# attribute 2 kind\n# attribute 2 lower\n# attribute 2 upper\n# attribute 2 increment\n# attribute 2 default\n# attribute 2 current\n# attribute 2 readonly\n# items => Twice top sdr
until # items -> [[attribute]]\nname = 4\nkind = 4\nreadonly = 4\n# items => Twice top sdr
until # items -> [[state]]\n# state id\n# state operational\n# state states\n# state current\n# items => Twice top sdr
until # items -> [[state]]\nid = 4 # again\noperational = 1\nstates = [[1, 2], [7]]\ncurrent = [2, 7]\n# items => Twice top sdr
until # items -> [[numeric]]\n# numeric id\n# numeric size\n# numeric operational\n# numeric lower\n# numeric upper\n# numeric current\n# items => Twice top sdr
until # items -> [[numeric]]\nid = 5 # again\nsize = 2\noperational = 2\nlower = 0\nupper = 1000\ncurrent = 500\n# items => Twice top sdr
until sdr = ["010051C000", "010051C000"] -> sdr = ["010051C000"] => Twice top sdr

# The device.
until # id -> device.id = 1.0 => Missing device id
until # revision -> device.revision = [1] => Missing device revision
until # major -> device.major = true => Missing device major
until # minor -> device.minor = "5" => Missing device minor
until # support -> device.support = true => Missing device support
until # manufacturer -> device.manufacturer = true => Missing device manufacturer
until # product -> device.product = true => Missing device product
until device.id = 1.0 -> device.id = 256 => WrongType device id
until device.revision = [1] -> device.revision = -1 => WrongType device revision
until device.major = true -> device.major = 256 => WrongType device major
until device.minor = "5" -> device.minor = 0x0A => WrongType device minor
until device.support = true -> device.support = -1 => WrongType device support
until device.manufacturer = true -> device.manufacturer = 0x1000000 => WrongType device manufacturer
until device.product = true -> device.product = 0x10000 => WrongType device product
until device.id = 256 -> device.id = 0x20 => Range device id
until device.revision = -1 -> device.revision = 1 => Range device revision
until device.major = 256 -> device.major = 1 => Range device major
until device.minor = 0x0A -> device.minor = 0x05 => Range device minor
until device.support = -1 -> device.support = 0x07 => Range device support
until device.manufacturer = 0x1000000 -> device.manufacturer = 0xABCD => Range device manufacturer
until device.product = 0x10000 -> device.product = 0x1234 => Range device product

# A sensor, and one with its number.
until # sensor number -> number = true => Missing sensor 0 number
until # sensor type -> type = true => Missing sensor 0 type
until # sensor readable -> readable = true => Missing sensor 0 readable
until # sensor settable -> settable = true => Missing sensor 0 settable
until # sensor thresholds -> thresholds = 0 => Missing sensor 0 thresholds
until # sensor hysteresis -> hysteresis = 0 => Missing sensor 0 hysteresis
until # sensor supported -> supported = [0] => Missing sensor 0 supported
until # sensor flags -> flags = true => Missing sensor 0 flags
until # sensor assert -> assert = [6] => Missing sensor 0 assert
until # sensor deassert -> deassert = "0" => Missing sensor 0 deassert
until number = true -> number = 255 => WrongType sensor 0 number
until type = true -> type = 256 => WrongType sensor 0 type
until readable = true -> readable = 64 => WrongType sensor 0 readable
until settable = true -> settable = 64 => WrongType sensor 0 settable
until thresholds = 0 -> thresholds = [0] => WrongType sensor 0 thresholds
until hysteresis = 0 -> hysteresis = [0] => WrongType sensor 0 hysteresis
until supported = [0] -> supported = 4096 => WrongType sensor 0 supported
until flags = true -> flags = 0x20 => WrongType sensor 0 flags
until assert = [6] -> assert = 0x1000 => WrongType sensor 0 assert
until deassert = "0" -> deassert = -1 => WrongType sensor 0 deassert
until number = 255 -> number = 5 => Range sensor 0 number
until type = 256 -> type = 1 => Range sensor 0 type
until readable = 64 -> readable = 0x3F => Range sensor 0 readable
until settable = 64 -> settable = 0x3F => Range sensor 0 settable
until thresholds = [0] -> thresholds = [20, 10, 5, 80, 95, 110] => Range sensor 0 thresholds
until hysteresis = [0] -> hysteresis = [3, 1] => Range sensor 0 hysteresis
until supported = 4096 -> supported = 0xFFF => Range sensor 0 supported
until flags = 0x20 -> flags = 0xC0 => Range sensor 0 flags
until assert = 0x1000 -> assert = 0x200 => Range sensor 0 assert
until deassert = -1 -> deassert = 0 => Range sensor 0 deassert
until number = 5 # again -> number = 7 => Twice sensor 1 number

# A channel with sessions, and one with its number.
until # channel number -> number = false => Missing channel 0 number
until # channel sessions -> sessions = true => Missing channel 0 sessions
until # channel access -> access = 2 => Missing channel 0 access
until # channel limit -> limit = 4 => Missing channel 0 limit
until # channel users -> users = 0x14 => Missing channel 0 users
until number = false -> number = 12 => WrongType channel 0 number
until access = 2 -> access = [4, 2] => WrongType channel 0 access
until limit = 4 -> limit = [4, 6] => WrongType channel 0 limit
until users = 0x14 -> users = [0x14] => WrongType channel 0 users
until number = 12 -> number = 1 => Range channel 0 number
until access = [4, 2] -> access = [2, 2] => Range channel 0 access
until limit = [4, 6] -> limit = [4, 4] => Range channel 0 limit
until users = [0x14] -> users = [0x14, 0x14] => Range channel 0 users
until number = 1 # again -> number = 2 => Twice channel 1 number

# An attribute that is an enumeration.
until # attribute 0 name -> name = 1 => Missing attribute 0 name
until # attribute 0 kind -> kind = "enumeration" => Missing attribute 0 kind
until # attribute 0 values -> values = [1] => Missing attribute 0 values
until # attribute 0 default -> default = 0 => Missing attribute 0 default
until # attribute 0 current -> current = "0" => Missing attribute 0 current
until # attribute 0 readonly -> readonly = 1 => Missing attribute 0 readonly
until name = 1 -> name = "<201:n>" => WrongType attribute 0 name
until values = [1] -> values = [<17:"v", >] => WrongType attribute 0 values
until default = 0 -> default = [2] => WrongType attribute 0 default
until current = "0" -> current = [3] => WrongType attribute 0 current
until readonly = 1 -> readonly = false => WrongType attribute 0 readonly
until name = "<201:n>" -> name = "Boot" => Range attribute 0 name
until values = [<17:"v", >] -> values = ["disk", "net"] => Range attribute 0 values
until default = [2] -> default = [0] => Range attribute 0 default
until current = [3] -> current = [1] => Range attribute 0 current

# One that is a text.
until # attribute 1 name -> name = 2 => Missing attribute 1 name
until # attribute 1 kind -> kind = "string" => Missing attribute 1 kind
until # attribute 1 string_type -> string_type = "1" => Missing attribute 1 string_type
until # attribute 1 least -> least = "2" => Missing attribute 1 least
until # attribute 1 most -> most = "8" => Missing attribute 1 most
until # attribute 1 default -> default = 4 => Missing attribute 1 default
until # attribute 1 current -> current = 5 => Missing attribute 1 current
until # attribute 1 readonly -> readonly = 2 => Missing attribute 1 readonly
until name = 2 -> name = "<202:n>" => WrongType attribute 1 name
until string_type = "1" -> string_type = 256 => WrongType attribute 1 string_type
until least = "2" -> least = 65536 => WrongType attribute 1 least
until most = "8" -> most = 1025 => WrongType attribute 1 most
until default = 4 -> default = "a" => WrongType attribute 1 default
until current = 5 -> current = "b" => WrongType attribute 1 current
until readonly = 2 -> readonly = true => WrongType attribute 1 readonly
until name = "<202:n>" -> name = "Owner" => Range attribute 1 name
until string_type = 256 -> string_type = 1 => Range attribute 1 string_type
until least = 65536 -> least = 2 => Range attribute 1 least
until most = 1025 -> most = 8 => Range attribute 1 most
until default = "a" -> default = "abcd" => Range attribute 1 default
until current = "b" -> current = "rack-2" => Range attribute 1 current

# One that is a number.
until # attribute 2 name -> name = 3 => Missing attribute 2 name
until # attribute 2 kind -> kind = "integer" => Missing attribute 2 kind
until # attribute 2 lower -> lower = "20" => Missing attribute 2 lower
until # attribute 2 upper -> upper = "300" => Missing attribute 2 upper
until # attribute 2 increment -> increment = "10" => Missing attribute 2 increment
until # attribute 2 default -> default = "30" => Missing attribute 2 default
until # attribute 2 current -> current = "40" => Missing attribute 2 current
until # attribute 2 readonly -> readonly = 3 => Missing attribute 2 readonly
until name = 3 -> name = "<203:n>" => WrongType attribute 2 name
until lower = "20" -> lower = -1 => WrongType attribute 2 lower
until upper = "300" -> upper = 19 => WrongType attribute 2 upper
until increment = "10" -> increment = -1 => WrongType attribute 2 increment
until default = "30" -> default = 35 => WrongType attribute 2 default
until current = "40" -> current = 41 => WrongType attribute 2 current
until readonly = 3 -> readonly = false # each time => WrongType attribute 2 readonly
until name = "<203:n>" -> name = "Wait" => Range attribute 2 name
until lower = -1 -> lower = 20 => Range attribute 2 lower
until upper = 19 -> upper = 300 => Range attribute 2 upper
until increment = -1 -> increment = 10 => Range attribute 2 increment
until default = 35 -> default = 30 => Range attribute 2 default
until current = 41 -> current = 40 => Range attribute 2 current

# One of another kind. It has only the fields that each attribute has.
until name = 4 -> name = "<204:n>" => WrongType attribute 3 name
until kind = 4 -> kind = "password" => WrongType attribute 3 kind
until readonly = 4 -> readonly = true => WrongType attribute 3 readonly
until name = "<204:n>" -> name = "None" => Range attribute 3 name
until kind = "password" -> kind = "enumeration"\nvalues = ["a"]\ndefault = [0]\ncurrent = [0] => Range attribute 3 kind

# A state effecter, and one with its id.
until # state id -> id = 4.0 => Missing state 0 id
until # state operational -> operational = [1] => Missing state 0 operational
until # state states -> states = [1] => Missing state 0 states
until # state current -> current = 7 => Missing state 0 current
until id = 4.0 -> id = 0x10000 => WrongType state 0 id
until operational = [1] -> operational = 3 => WrongType state 0 operational
until states = [1] -> states = [] => WrongType state 0 states
until current = 7 -> current = [7] => WrongType state 0 current
until id = 0x10000 -> id = 4 => Range state 0 id
until operational = 3 -> operational = 1 => Range state 0 operational
until states = [] -> states = [[1, 2], [7]] => Range state 0 states
until current = [7] -> current = [2, 7] => Range state 0 current
until id = 4 # again -> id = 6 => Twice state 1 id

# A numeric effecter, and one with its id.
until # numeric id -> id = 5.0 => Missing numeric 0 id
until # numeric size -> size = true => Missing numeric 0 size
until # numeric operational -> operational = [2] => Missing numeric 0 operational
until # numeric lower -> lower = false => Missing numeric 0 lower
until # numeric upper -> upper = "" => Missing numeric 0 upper
until # numeric current -> current = [500] => Missing numeric 0 current
until id = 5.0 -> id = 0x10001 => WrongType numeric 0 id
until size = true -> size = 6 => WrongType numeric 0 size
until operational = [2] -> operational = 0 => WrongType numeric 0 operational
until lower = false -> lower = -2 => WrongType numeric 0 lower
until upper = "" -> upper = 0x10002 => WrongType numeric 0 upper
until current = [500] -> current = 1001 => WrongType numeric 0 current
until id = 0x10001 -> id = 5 => Range numeric 0 id
until size = 6 -> size = 2 => Range numeric 0 size
until operational = 0 -> operational = 2 => Range numeric 0 operational
until lower = -2 -> lower = 0 => Range numeric 0 lower
until upper = 0x10002 -> upper = 1000 => Range numeric 0 upper
until current = 1001 -> current = 500 => Range numeric 0 current
until id = 5 # again -> id = 7 => Twice numeric 1 id

# All is right at last.
=> holds 2 Sensor {
=> holds 2 non_volatile:
=> holds 4 Attribute { handle:
=> holds 2 StateEffecter {
=> holds 2 NumericEffecter {

file plan
+ retries = true
+ step = 1

# The plan's own fields: those of another type, those out of their ranges, and too many steps.
until retries = true -> retries = 16 => WrongType retries
until step = 1 -> step = [<257:{}, >] => WrongType step
until retries = 16 -> retries = 5 => Range retries
until step = [<257:{}, >] -> [[step]]\n# kind 0\n[[step]]\n# kind 1\n[[step]]\n# kind 2\n[[step]]\n# kind 3\n[[step]]\n# kind 4\n[[step]]\n# kind 5\n[[step]]\n# kind 6\n[[step]]\n# kind 7\n[[step]]\n# kind 8\n[[step]]\n# kind 9\n[[step]]\n# kind 10\n[[step]]\n# kind 11\n[[step]]\n# kind 12 => TooMany

# The first step's kind.
until # kind 0 -> kind = 1 => 0 Missing kind
until kind = 1 -> kind = "clock" => 0 WrongType kind
until kind = "clock" -> kind = "Clock" => 0 OutsidePlan Clock
until kind = "Clock" -> # kind 0 => 0 UnknownKind

# Thresholds.
until # kind 0 -> kind = "thresholds"\n# sensor\nlnc = true\nlc = true\nlnr = true\nunc = true\nuc = true\nunr = true => 0 Missing kind
until # sensor -> sensor = true => 0 Missing sensor
until sensor = true -> sensor = 256 => 0 WrongType sensor
until lnc = true -> lnc = 256 => 0 WrongType lnc
until lc = true -> lc = 256 => 0 WrongType lc
until lnr = true -> lnr = 256 => 0 WrongType lnr
until unc = true -> unc = 256 => 0 WrongType unc
until uc = true -> uc = 256 => 0 WrongType uc
until unr = true -> unr = 256 => 0 WrongType unr
until sensor = 256 -> sensor = 5 => 0 Range sensor
until lnc = 256 -> lnc = 1 => 0 Range lnc
until lc = 256 -> lc = 2 => 0 Range lc
until lnr = 256 -> lnr = 3 => 0 Range lnr
until unc = 256 -> unc = 4 => 0 Range unc
until uc = 256 -> uc = 5 => 0 Range uc
until unr = 256 -> unr = 6 => 0 Range unr

# Hysteresis.
until # kind 1 -> kind = "hysteresis"\n# sensor\n# positive\n# negative => 1 Missing kind
until # sensor -> sensor = true => 1 Missing sensor
until # positive -> positive = true => 1 Missing positive
until # negative -> negative = [8] => 1 Missing negative
until sensor = true -> sensor = 256 => 1 WrongType sensor
until positive = true -> positive = 256 => 1 WrongType positive
until negative = [8] -> negative = -1 => 1 WrongType negative
until sensor = 256 -> sensor = 6 => 1 Range sensor
until positive = 256 -> positive = 7 => 1 Range positive
until negative = -1 -> negative = 8 => 1 Range negative

# Events.
until # kind 2 -> kind = "event-enable"\n# sensor\n# messages\n# scanning\n# select\n# assert\n# deassert => 2 Missing kind
until # sensor -> sensor = true => 2 Missing sensor
until # messages -> messages = 1 => 2 Missing messages
until # scanning -> scanning = 0 => 2 Missing scanning
until # select -> select = 1 => 2 Missing select
until # assert -> assert = 7 => 2 Missing assert
until # deassert -> deassert = 0 => 2 Missing deassert
until sensor = true -> sensor = 256 => 2 WrongType sensor
until messages = 1 -> messages = true => 2 WrongType messages
until scanning = 0 -> scanning = false => 2 WrongType scanning
until select = 1 -> select = "Enable" => 2 WrongType select
until assert = 7 -> assert = [12] => 2 WrongType assert
until deassert = 0 -> deassert = [-1] => 2 WrongType deassert
until sensor = 256 -> sensor = 9 => 2 Range sensor
until select = "Enable" -> select = "enable" => 2 Range select
until assert = [12] -> assert = [7, 9, 7] => 2 Range assert
until deassert = [-1] -> deassert = [0, 11] => 2 Range deassert

# The watchdog timer.
until # kind 3 -> kind = "watchdog"\nflags_clear = 0\n# use\n# no_log\n# action\n# interrupt\n# pre\n# initial => 3 Missing kind
until flags_clear = 0 -> # not that => 3 NoGet FlagsClear
until # use -> use = true => 3 Missing use
until # no_log -> no_log = 0 => 3 Missing no_log
until # action -> action = true => 3 Missing action
until # interrupt -> interrupt = "2" => 3 Missing interrupt
until # pre -> pre = [10] => 3 Missing pre
until # initial -> initial = true => 3 Missing initial
until use = true -> use = 6 => 3 WrongType use
until no_log = 0 -> no_log = true => 3 WrongType no_log
until action = true -> action = 4 => 3 WrongType action
until interrupt = "2" -> interrupt = 4 => 3 WrongType interrupt
until pre = [10] -> pre = 256 => 3 WrongType pre
until initial = true -> initial = 65536 => 3 WrongType initial
until use = 6 -> use = 3 => 3 Range use
until action = 4 -> action = 1 => 3 Range action
until interrupt = 4 -> interrupt = 2 => 3 Range interrupt
until pre = 256 -> pre = 10 => 3 Range pre
until initial = 65536 -> initial = 3000 => 3 Range initial

# The power restore policy.
until # kind 4 -> kind = "power-policy"\n# policy => 4 Missing kind
until # policy -> policy = true => 4 Missing policy
until policy = true -> policy = 3 => 4 WrongType policy
until policy = 3 -> policy = 2 => 4 Range policy

# Global enables.
until # kind 5 -> kind = "global-enables"\n# value => 5 Missing kind
until # value -> value = true => 5 Missing value
until value = true -> value = 0x10 => 5 WrongType value
until value = 0x10 -> value = 0x08 => 5 Range value

# A boot parameter.
until # kind 6 -> kind = "boot-param"\nparam = 0\n# invalid\ndata = 1 => 6 Missing kind
until param = 0 -> # param => 6 NoGet SetInProgress
until # param -> param = true => 6 Missing param
until # invalid -> invalid = 0 => 6 Missing invalid
until param = true -> param = 6 => 6 WrongType param
until invalid = 0 -> invalid = false => 6 WrongType invalid
until data = 1 -> data = [3] => 6 WrongType data
until param = 6 -> param = 4 => 6 Range param
until data = [3] -> data = [3, 1] => 6 Range data

# A BIOS attribute.
until # kind 7 -> kind = "bios-attribute"\n# handle\n# indexes => 7 Missing kind
until # handle -> handle = "7" => 7 Missing handle
until # indexes -> indexes = 3\ntext = 1\nnumber = "1" => 7 Missing indexes
until handle = "7" -> handle = 65536 => 7 WrongType handle
until indexes = 3 -> indexes = [] => 7 WrongType indexes
until text = 1 -> # no text => 7 WrongType text
until number = "1" -> number = -1 => 7 WrongType number
until handle = 65536 -> handle = 7 => 7 Range handle
until indexes = [] -> indexes = [3] => 7 Range indexes
until number = -1 -> # no number => 7 Range indexes

# States of an effecter.
until # kind 8 -> kind = "state-effecter"\n# effecter\n# states => 8 Missing kind
until # effecter -> effecter = true => 8 Missing effecter
until # states -> states = 0 => 8 Missing states
until effecter = true -> effecter = 65536 => 8 WrongType effecter
until states = 0 -> states = [] => 8 WrongType states
until effecter = 65536 -> effecter = 261 => 8 Range effecter
until states = [] -> states = [2, -1, 7] => 8 Range states

# The number of an effecter.
until # kind 9 -> kind = "numeric-effecter"\n# effecter\n# size\n# value => 9 Missing kind
until # effecter -> effecter = true => 9 Missing effecter
until # size -> size = "2" => 9 Missing size
until # value -> value = 1000.0 => 9 Missing value
until effecter = true -> effecter = 65536 => 9 WrongType effecter
until size = "2" -> size = 6 => 9 WrongType size
until value = 1000.0 -> value = 65536 => 9 WrongType value
until effecter = 65536 -> effecter = 261 => 9 Range effecter
until size = 6 -> size = 2 => 9 Range size
until value = 65536 -> value = 1000 => 9 Range value

# A user's name.
until # kind 10 -> kind = "user-name"\n# user\n# name => 10 Missing kind
until # user -> user = "2" => 10 Missing user
until # name -> name = 1 => 10 Missing name
until user = "2" -> user = 64 => 10 WrongType user
until name = 1 -> name = "seventeen letters" => 10 WrongType name
until user = 64 -> user = 2 => 10 Range user
until name = "seventeen letters" -> name = "operator" => 10 Range name

# A user's access.
until # kind 11 -> kind = "user-access"\nsession_limit = 0\n# channel\n# user\n# limit\n# callback\nlink = ""\nmessaging = [] => 11 Missing kind
until session_limit = 0 -> # not that => 11 NoGet SessionLimit
until # channel -> channel = [1] => 11 Missing channel
until # user -> user = true => 11 Missing user
until # limit -> limit = 4.0 => 11 Missing limit
until # callback -> callback = 1 => 11 Missing callback
until channel = [1] -> channel = 16 => 11 WrongType channel
until user = true -> user = 0 => 11 WrongType user
until limit = 4.0 -> limit = 6 => 11 WrongType limit
until callback = 1 -> callback = true => 11 WrongType callback
until link = "" -> link = false => 11 WrongType link
until messaging = [] -> messaging = true => 11 WrongType messaging
until channel = 16 -> channel = 1 => 11 Range channel
until user = 0 -> user = 3 => 11 Range user
until limit = 6 -> limit = 4 => 11 Range limit

# A channel's access.
until # kind 12 -> kind = "channel-access"\n# channel\nstore = "both"\naccess = true\nlimit = "5" => 12 Missing kind
until store = "both" -> # store => 12 NoGet BothStores
until # channel -> channel = "6" => 12 Missing channel
until # store -> store = 1 => 12 Missing store
until channel = "6" -> channel = 16 => 12 WrongType channel
until store = 1 -> store = "Volatile" => 12 WrongType store
until access = true -> access = 64 => 12 WrongType access
until limit = "5" -> limit = 6 => 12 WrongType limit
until channel = 16 -> channel = 6 => 12 Range channel
until store = "Volatile" -> store = "volatile" => 12 Range store
until access = 64 -> access = 0x2B => 12 Range access
until limit = 6 -> limit = 5 => 12 Range limit

# All is right at last.
=> 5: ipmb 1026053F010203040506\nipmb 102406FF0708\nipmb 1028099080020108\nipmb 182483210A00B80B\nipmb 000602\nipmb 182E08\nipmb 0008040301\nsmbus 0307<4:00>050700000103\nsmbus 0239050103010200000107\nsmbus 0231050102E803\nipmb 1845026F70657261746F72<8:00>\nipmb 1843D10304\nipmb 184006AB85
"#;

#[test]
fn faults_come_in_the_order_of_the_tables(rt: HostRuntime) {
    expect_told(&rt, rt.alloc(), MENDED);
}
