//! The texts that a play is told in.
use super::expect_told;

/// A board file, a plan and a schedule: the first text that is refused is named.
const PLAYS: &str = r#"
file play
tid = 5\n---\nretries = 16\n---\nbegin => board Missing top clock
tid =\n---\n---\n => board Text

# A board that is read.
file play
with bare
+ ---
retries = 16\n---\nbegin => plan Range retries
[[step]]\nkind = "password"\n---\n => plan 0 OutsidePlan Password
[[step]]\nkind = "clock"\n---\n => plan 0 OutsidePlan Clock
[[step]]\nkind = "log"\n---\n => plan 0 OutsidePlan Log
[[step]]\nkind = "watchdog"\nflags_clear = 0\n---\n => plan 0 NoGet FlagsClear
behind retries = 2\n[[step]]\nkind = "power-policy"\npolicy = 2\n---\n
start\n\nbegin\n => schedule Line 3
start\n\nto-bmc 0\n => holds 1 BoardFile { tid: 5,
start\n\nto-bmc 0\n => holds 1 , 2: ipmb 000602, Schedule { events: [Calls(Start), ToBmc(0)] }
"#;

#[test]
fn the_texts_of_plays_are_read(rt: HostRuntime) {
    expect_told(&rt, rt.alloc(), PLAYS);
}
