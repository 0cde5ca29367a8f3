//! Laws of texts.
ghost use Rattle.std.specs.Prelude.{◌≡◌, ◌<◌, ◌^◌, ℕ, List};
ghost use Rattle.std.specs.Fmt.{decimal};
ghost use Rattle.text_lines.specs.Cuts.{LacksByte, CutsAt};

/// A text is cut in one way at most, and only where the mark is in it.
pub fn one_cut()
    ensures same { (mark : ℕ) (text front back before after : List ℕ) → CutsAt mark text front back
        → CutsAt mark text before after → (front ≡ before) × (back ≡ after) }
    ensures there { (mark : ℕ) (text front back : List ℕ) → CutsAt mark text front back
        → ¬ LacksByte mark text }
{}

/// No two numbers are written alike.
pub fn one_plain_number()
    ensures { (m n : ℕ) → m < 2 ^ 64 → n < 2 ^ 64 → decimal m ≡ decimal n → m ≡ n }
{}
