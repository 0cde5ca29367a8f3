//! Laws of texts of readings.
ghost use Rattle.std.specs.Prelude.{◌≡◌, ℕ, List};
ghost use Rattle.bmc_ports.specs.declared.timetable.Timed.{Timed as AnyTimed};
ghost use Rattle.app_serve.specs.ReadingsText.{IsReadingsText, IsFirstBad};

/// A text stands for one list at most, has one first bad line at most, and never both.
pub fn one_readings_list()
    ensures same { (text : List ℕ) (a b : List AnyTimed)
        → IsReadingsText text a → IsReadingsText text b → a ≡ b }
    ensures apart { (text : List ℕ) (list : List AnyTimed) (n : ℕ)
        → IsReadingsText text list → ¬ IsFirstBad text n }
    ensures first { (text : List ℕ) (m n : ℕ)
        → IsFirstBad text m → IsFirstBad text n → m ≡ n }
{}
