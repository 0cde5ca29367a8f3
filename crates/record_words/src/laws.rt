//! Laws of lines.
ghost use Rattle.std.specs.Prelude.{◌≡◌, ◌%◌, ◌<◌, ◌^◌, ℕ, List, length};
ghost use Rattle.record_base.specs.Requests.{byte_at};
ghost use Rattle.record_base.specs.declared.key.Key.{Key as AnyKey};
ghost use Rattle.record_base.specs.declared.message.Asked.TheVariants as asked;
ghost use Rattle.record_words.specs.declared.in_words.InWords.{InWords as AnyLine};
ghost use Rattle.record_words.specs.declared.request.UndoInWords.{UndoInWords as AnyUndo};
ghost use Rattle.record_words.specs.declared.shown.Shown.TheVariants as shown;
ghost use Rattle.record_words.specs.Apart.{AreBytes};
ghost use Rattle.record_words.specs.NameWords.{record_words};
ghost use Rattle.record_words.specs.OpWords.{words_of};
ghost use Rattle.record_words.specs.Printable.{IsLine};
ghost use Rattle.record_words.specs.Quotes.{quoted};
ghost use Rattle.record_words.specs.ShownWords.{shown_words};
ghost use Rattle.record_words.specs.RequestWords.{IsUndoWords, password_words, undo_words_of};

/// Each line is printable ASCII: it has no control character, and no line feed.
pub fn lines_are_printable()
    ensures lines { (it : AnyLine) → IsLine (words_of it) }
    ensures undone { (it : AnyUndo) → IsLine (undo_words_of it) }
    ensures names { (key : AnyKey) → IsLine (record_words key) }
{}

/// What is said of a request that sets or tests a password (IPMI 2.0, Set User Password) tells the user alone.
pub fn no_password_is_shown()
    ensures { (lun : ℕ) (body words : List ℕ)
        → IsUndoWords words (asked.Ipmi 0 0x06 lun 0x47 body)
        → words ≡ password_words (byte_at body 0 % 64) }
{}

/// Different numbers, bits, names and texts are said differently. A name has as many bytes as each other name.
pub fn fields_are_told_apart()
    ensures numbers { (m n : ℕ) → m < 2 ^ 64 → n < 2 ^ 64
        → shown_words (shown.Number m) ≡ shown_words (shown.Number n) → m ≡ n }
    ensures bytes { (m n : ℕ) → m < 2 ^ 64 → n < 2 ^ 64
        → shown_words (shown.Raw m) ≡ shown_words (shown.Raw n) → m ≡ n }
    ensures bits { (m n : ℕ) → m < 256 → n < 256
        → shown_words (shown.Bits m) ≡ shown_words (shown.Bits n) → m ≡ n }
    ensures names { (one other : List ℕ) → AreBytes one → AreBytes other
        → length one ≡ length other
        → shown_words (shown.Name one) ≡ shown_words (shown.Name other) → one ≡ other }
    ensures texts { (one other : List ℕ) → AreBytes one → AreBytes other
        → quoted one ≡ quoted other → one ≡ other }
{}
