//! Lines, words, numbers and bytes, as texts have them.
use super::expect_told;

/// What is cut off lines, and which numbers and bytes words are.
const LINES: &str = r#"
# A line ends with a line feed.
file first line
undo 1\nnext\n => undo 1|next\n
\n => |
undo 1 => none
=> none

# A word ends with a space.
file first word
to-bmc 12 3 => to-bmc|12 3
  a => | a
tick => none

# The word that is looked for is `ipmb `.
file behind
ipmb 10 => "10"
ipmb => none

# A number in decimal digits without leading zeros.
file plain number
0 => 0
63 => 63
4294967295 => 4294967295
4294967296 => none
00 => none
07 => none
+7 => none
-7 => none
=> none
7  => none
0x7 => none

# A number in at most nine decimal digits.
file number
0 => 0
007 => 7
999999999 => 999999999
0000000007 => none
+7 => none
=> none
1a => none

# Two hexadecimal digits, in either case.
file byte
5a | 5A => 90
5 | 5A5A | 5g => none

# Two for each byte.
file bytes
10Ff00 => [16, 255, 0]
10F => none
1  => none
"#;

#[test]
fn lines_are_cut_and_words_are_read(rt: HostRuntime) {
    expect_told(&rt, rt.alloc(), LINES);
}
