//! Laws of the texts of journals.
ghost use Rattle.std.specs.Prelude.{◌≡◌, ℕ, List};
ghost use Rattle.undo_plans.specs.KeptManager.{Kept};
ghost use Rattle.text_journal.specs.JournalText.{IsTextOf, IsFirstBad};

/// All journals that a text stands for say the same. It has one first bad line at most, and never both: so what is written is read again as the
/// same.
pub fn one_journal()
    ensures same { (text : List ℕ) (a b : Kept) → IsTextOf text a → IsTextOf text b → a ≡ b }
    ensures apart { (text : List ℕ) (kept : Kept) (n : ℕ) → IsTextOf text kept
        → ¬ IsFirstBad text n }
    ensures first { (text : List ℕ) (m n : ℕ) → IsFirstBad text m → IsFirstBad text n → m ≡ n }
{}
