//! Stories that are told wrong, and what is said of each line.
use super::story::expect_otherwise;

/// Each line is told wrong, but for those that say so.
const WRONG: &str = r#"
# A line of no file.
policy = 1 => reads
file plan
+ [[step]]
+ kind = "power-policy"
+ policy = 2
# The number of the fault's step, what can be read, a fault that isn't one, how often a part is shown, and what is shown.
at policy = 2
policy = 3 => 1 Range policy
policy = 3 => reads
policy = 1 => 0 Range policy
policy = 1 => holds 2 ipmb
policy = 1 => holds ipmb
policy = 1 => 3: ipmb 000602
policy = 1 => 3: ipmb 0006
=> reads
# The second and the third are right.
policy = true | policy = 1 | policy = 0 => reads
# A line that isn't there, so that the file stands as it is.
at policy = 9
policy = 3 => 0 Range policy
until policy = 9 -> policy = 0 => 3: ipmb 000602
# The last is right, since the one before mended the file.
until policy = 2 -> policy = 0 => reads too
until policy = 0 -> policy = 1 => 3: ipmb 000600
behind
<2:[[step]]\nkind = "power-policy"\npolicy = #\n> => holds 2 ipmb
<2>[[step]]\n => reads
# What is no line of a story.
policy = 3
 # policy = 3
until policy = 1
until policy = 1 => reads
with other
# Of the prefixes those are read that have no step or all of it, with its last line feed and without.
ends reads => 0 41
ends 0 Missing policy => 30 31 32

# A file of which nothing is told, and one of no form.
file plan
+ retries = 2
file other
+ retries = 2

# Each form is told wrong.
file board
=> none
file plan
=> none
file undo
=> none
file list
=> none
file schedule
=> none
file play
=> none
file first line
a\n => a
file first word
a b => a
file behind
ipmb 1 => 1
file plain number
12 => 1
file number
12 => 1
file byte
0A => 11
file bytes
0A => [11]
file plan
"#;

/// What is said of it.
const SAID: &str = r#"policy = 1 => reads is no line of a story
policy = 3 => 0 Range policy
policy = 3 => 0 Range policy
policy = 1 => 3: ipmb 000601
policy = 1 => 3: ipmb 000601
policy = 1 => 3: ipmb 000601
policy = 1 => 3: ipmb 000601
policy = 1 => 3: ipmb 000601
 => 0 Missing policy
policy = true => 0 WrongType policy
policy = 9 is no line of the file
policy = 3 => 3: ipmb 000602
policy = 9 -> policy = 0 is no line of a story
policy = 2 -> policy = 0 => 3: ipmb 000602
<2:[[step]]\nkind = "power-policy"\npolicy = #\n> => 3: ipmb 000601
ipmb 000600
ipmb 000601
<2>[[step]]\n => Text
policy = 3 is no line of a story
 # policy = 3 is no line of a story
until policy = 1 is no line of a story
policy = 1 is no line of a story
other is no line of a story
ends reads => 0 41 42
ends 0 Missing policy => 30 31
nothing is told
file other is no line of a story
+ retries = 2 is no line of a story
 => Missing top tid
 => 3:
 => Line 1
 => Line 1
 => Schedule { events: [] }
 => board Missing top tid
a\n => a|
a b => a|b
ipmb 1 => "1"
12 => 12
12 => 12
0A => 10
0A => [10]
nothing is told
"#;

#[test]
fn what_is_told_wrong_is_noticed(rt: HostRuntime) {
    expect_otherwise(&rt, rt.alloc(), WRONG, SAID);
    expect_otherwise(&rt, rt.alloc(), "", "nothing is told\n");
}
