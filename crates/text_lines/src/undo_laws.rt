//! Laws of undo texts.
ghost use Rattle.std.specs.Prelude.{◌≡◌, ℕ, List};
ghost use Rattle.undo_plans.specs.declared.undo_list.UndoList.{UndoList as AnyList};
ghost use Rattle.text_lines.specs.UndoText.{IsTextOf, AreAlike, IsFirstBad};

/// All lists that a text stands for say the same. It has one first bad line at most, and never both: so what is written is read again as the same.
pub fn one_undo_list()
    ensures same { (text : List ℕ) (a b : AnyList) → IsTextOf text a → IsTextOf text b
        → AreAlike a b }
    ensures apart { (text : List ℕ) (list : AnyList) (n : ℕ) → IsTextOf text list
        → ¬ IsFirstBad text n }
    ensures first { (text : List ℕ) (m n : ℕ) → IsFirstBad text m → IsFirstBad text n → m ≡ n }
{}
