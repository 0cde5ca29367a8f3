//! Lines and words.
ghost use Rattle.std.specs.Prelude.{◌≡◌, ◌≢◌, ◌++◌, ℕ, List, IfSome, IfNone};
ghost use Rattle.text_lines.specs.Cuts.{line_feed, space, LacksByte, CutsAt};

/// The first line of the text, which a line feed ends, and what stands behind that. A text without a line feed has no such line.
pub fn first_line(text: &str) -> Option<(&str, &str)>
    ensures some { IfSome result (λ parts. CutsAt line_feed text.now parts.0.now parts.1.now) }
    ensures none { IfNone result (LacksByte line_feed text.now) }
{
    text.split_once('\n')
}

/// The first word of the line, which a space ends, and what stands behind that. A line without a space has no such word: it's one word.
pub fn first_word(line: &str) -> Option<(&str, &str)>
    ensures some { IfSome result (λ parts. CutsAt space line.now parts.0.now parts.1.now) }
    ensures none { IfNone result (LacksByte space line.now) }
{
    line.split_once(' ')
}

/// What stands behind the words, where the text begins with them.
pub fn behind<'a>(words: &str, text: &'a str) -> Option<&'a str>
    ensures some { IfSome result (λ rest. text.now ≡ words.now ++ rest.now) }
    ensures none { IfNone result ((rest : List ℕ) → text.now ≢ words.now ++ rest) }
{
    text.strip_prefix(words)
}
