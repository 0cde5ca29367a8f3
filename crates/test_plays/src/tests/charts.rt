//! Charts of plays.
use super::expect_told;

/// What is drawn besides the stories of `examples`.
const CHARTS: &str = "story there is no such sensor
board sample
plan: [[step]] / kind = \"hysteresis\" / sensor = 9 / positive = 3 / negative = 1
schedule: start / to-bmc 0 / to-mgr 1
chart -> 0 out
  event mgr  |comes             sends            |bmc     phase
  1     start|                  ->0              |        Getting 0
  2          |->0               <-1              |answers Getting 0
  3          |<-1                                |        Halted 0 GetRefused CB

story two frames come twice, and the second copy of the reply is late
board sample
plan events
schedule: start / to-bmc 0 / to-bmc 0 / to-mgr 1 / to-mgr 1
chart -> 0 out
  event mgr  |comes             sends            |bmc     phase
  1     start|                  ->0              |        Getting 0
  2          |->0               <-1              |answers Getting 0
  3          |->0 copy          <-2 lost         |kept    Getting 0
  4          |<-1               ->3 lost         |        Setting 0
  5          |<-1 late copy                      |        Setting 0

story what others do, and what happens on the bench
board sample
plan events
schedule: other ipmb 40 280042 / other smbus 0B 01800002 / noise ipmb 00 / idle ipmb 40 / scan 05 60 / tick
chart -> 0 out
  event mgr  |comes             sends            |bmc     phase
  1          |->other           <-0              |        Fresh
  2          |=>other           <=1              |        Fresh
  3          |noise                              |        Fresh
  4          |idle                               |        Fresh
  5          |scan                               |        Fresh
  6          |tick                               |        Fresh

story nine requesters ask, of whom the manager is the last, and the controller keeps eight
board sample
plan events
schedule
  8 x other ipmb {x64+2} 280042
  start / to-bmc 8 / to-mgr 9
chart -> 0 out
  event mgr  |comes             sends            |bmc     phase
  1          |->other           <-0              |        Fresh
  2          |->other           <-1              |        Fresh
  3          |->other           <-2              |        Fresh
  4          |->other           <-3              |        Fresh
  5          |->other           <-4              |        Fresh
  6          |->other           <-5              |        Fresh
  7          |->other           <-6              |        Fresh
  8          |->other           <-7              |        Fresh
  9     start|                  ->8              |        Getting 0
  10         |->8               <-9              |busy    Getting 0
  11         |<-9                                |        Getting 0

# A step that gives the asset a name of 200 bytes, which takes four packets.
part long-name: [[step]] / kind = \"bios-attribute\" / handle = 1 / text = \"{200*x}\"

story the last two packets of the Set's first copy are lost
board sample
plan long-name
schedule: start / to-bmc 0 / to-mgr 1 / to-bmc 2 / to-bmc 3 / quiet / to-bmc 6 / to-bmc 7 / to-bmc 8 / to-bmc 9 / to-mgr 10
chart -> 0 out
  event mgr  |comes             sends            |bmc     phase
  1     start|                  =>0              |        Getting 0
  2          |=>0               <=1              |answers Getting 0
  3          |<=1               =>2+3 2 lost     |        Setting 0
  4          |=>2                                |waits   Setting 0
  5          |=>3                                |waits   Setting 0
  6     quiet|                  =>6+3            |        Setting 0
  7          |=>6                                |waits   Setting 0
  8          |=>7                                |waits   Setting 0
  9          |=>8                                |waits   Setting 0
  10         |=>9               <=10             |answers Setting 0
  11         |<=10                               |        Done

story the Set's first packet is lost, so that nothing waits for its second
board sample
plan long-name
schedule: start / to-bmc 0 / to-mgr 1 / to-bmc 3
chart -> 0 out
  event mgr  |comes             sends            |bmc     phase
  1     start|                  =>0              |        Getting 0
  2          |=>0               <=1              |answers Getting 0
  3          |<=1               =>2+3 3 lost     |        Setting 0
  4          |=>3                                |ignored Setting 0

story a fault is the last line of a chart
board sample
plan events
schedule: to-bmc 9 / start
chart -> 4 out
  event mgr  |comes             sends            |bmc     phase
  fault 1 NoFrame
schedule: start / to-bmc 0 / to-bmc 1 / to-mgr 1
chart -> 4 out
  event mgr  |comes             sends            |bmc     phase
  1     start|                  ->0              |        Getting 0
  2          |->0               <-1 lost         |answers Getting 0
  fault 3 WrongWay

story what is refused is not drawn
board: tid =
plan: retries = 16
schedule: begin
chart -> 3 err: board Text
board sample
chart -> 3 err: plan Range retries
plan events
schedule: start / begin
chart -> 3 err: schedule Line 2
";

#[test]
fn plays_are_drawn(rt: HostRuntime) {
    expect_told(&rt, rt.alloc(), CHARTS);
}
