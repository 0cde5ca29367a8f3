//! Stories of texts: files, and what comes of each with other lines.
use super::came::{Form, came_of};
use super::files::BARE;
use std::alloc::Global;
use std::fmt::Debug;
use std::process::Abort;
use stories::SAMPLE;

/// Where the other lines of a story stand.
#[derive(Clone, Copy)]
enum Place<'s> {
    /// In the place of each line of the file that is this.
    At(&'s str),
    /// Behind the file and these lines.
    Behind(&'s str),
}

/// The count, the part and the rest of `N:PART>REST`.
fn repetition(piece: &str) -> Option<(usize, &str, &str)> {
    let (inside, rest) = piece.split_once('>')?;
    let (times, part) = inside.split_once(':')?;
    Some((times.parse().ok()?, part, rest))
}

/// Appends the part.
fn push(rt: &impl Abort, text: &mut String, part: &str) {
    text.push_str(part).expect(rt, "memory");
}

/// Appends the part, with the number at each `#`.
fn push_part(rt: &impl Abort, alloc: Global, text: &mut String, part: &str, number: usize) {
    let digits = format!(in alloc; "{number}").expect(rt, "memory");
    let part = part.replace(alloc, "#", digits.as_str());
    drop(digits);
    let part = part.expect(rt, "memory");
    push(rt, text, part.as_str());
    drop(part);
}

/// Appends what stands behind a `<`.
fn push_piece(rt: &impl Abort, alloc: Global, text: &mut String, piece: &str) {
    let Some((times, part, rest)) = repetition(piece) else {
        push(rt, text, "<");
        return push(rt, text, piece);
    };
    for number in 0..times {
        push_part(rt, alloc, text, part, number);
    }
    push(rt, text, rest);
}

/// The words with line feeds and carriage returns.
fn unescaped(rt: &impl Abort, alloc: Global, words: &str) -> String {
    let lines = words.replace(alloc, "\\r", "\r").expect(rt, "memory");
    let text = lines.as_str().replace(alloc, "\\n", "\n");
    drop(lines);
    text.expect(rt, "memory")
}

/// The text that a story writes so, with its repetitions.
fn written(rt: &impl Abort, alloc: Global, words: &str) -> String {
    let lines = unescaped(rt, alloc, words);
    let mut pieces = lines.as_str().split('<');
    let mut text = String::new(alloc);
    push(rt, &mut text, pieces.next().unwrap_or(""));
    for piece in pieces {
        push_piece(rt, alloc, &mut text, piece);
    }
    drop(lines);
    text
}

/// Whether the file has this line.
fn has_line(file: &str, line: &str) -> bool {
    for held in file.lines() {
        if held == line {
            return true;
        }
    }
    false
}

/// The file with other lines in the place of each line that is this.
fn edited(rt: &impl Abort, alloc: Global, file: &str, old: &str, new: &str) -> String {
    let new = written(rt, alloc, new);
    let mut text = String::new(alloc);
    for line in file.lines() {
        push(rt, &mut text, if line == old { new.as_str() } else { line });
        push(rt, &mut text, "\n");
    }
    drop(new);
    text
}

/// The file with these lines behind it.
fn extended(rt: &impl Abort, alloc: Global, file: &str, head: &str, lines: &str) -> String {
    let words = [head, lines].concat(alloc).expect(rt, "memory");
    let lines = written(rt, alloc, words.as_str());
    drop(words);
    let text = [file, lines.as_str()].concat(alloc);
    drop(lines);
    text.expect(rt, "memory")
}

/// Whether this comes of the text.
fn is_told(rt: &impl Abort, alloc: Global, form: Form, text: &str, told: &str) -> bool {
    let came = came_of(rt, alloc, form, text);
    let is_told = came.is(told);
    drop(came);
    is_told
}

/// How long the prefixes of the text are of which this comes, from the shortest on, with a space behind each.
fn ends_of(rt: &impl Abort, alloc: Global, form: Form, text: &str, told: &str) -> String {
    let mut ends = String::new(alloc);
    for end in 0..=text.len() {
        if let Some(prefix) = text.get(..end) {
            if is_told(rt, alloc, form, prefix, told) {
                write!(ends, "{end} ").expect(rt, "memory");
            }
        }
    }
    ends
}

/// A story that is played.
#[derive(Drop)]
struct Player<'s> {
    /// The file as it stands.
    file: String,
    /// Its form, once a file of a form began.
    form: Option<Form>,
    place: Place<'s>,
    /// Whether nothing was told of the file yet.
    is_silent: bool,
    /// What came otherwise than told, a line each.
    otherwise: String,
}

impl<'s> Player<'s> {
    /// The whole text with these lines.
    fn whole(&self, rt: &impl Abort, alloc: Global, lines: &str) -> String {
        let file = self.file.as_str();
        match self.place {
            Place::At(old) => edited(rt, alloc, file, old, lines),
            Place::Behind(head) => extended(rt, alloc, file, head, lines),
        }
    }

    /// Of the text with these lines comes what is told.
    fn hear(
        &mut self,
        rt: &impl Abort,
        alloc: Global,
        form: Form,
        (lines, told): (&str, &str),
        text: &str,
    ) {
        self.is_silent = false;
        let came = came_of(rt, alloc, form, text);
        if !came.is(told) {
            writeln!(self.otherwise, "{lines} => {}", came.text.as_str()).expect(rt, "memory");
        }
        drop(came);
    }

    /// With each of the lines there comes what is told.
    fn hear_each(
        &mut self,
        rt: &impl Abort,
        alloc: Global,
        form: Form,
        (each, told): (&str, &str),
    ) {
        let told = written(rt, alloc, told);
        for lines in each.split(" | ") {
            let text = self.whole(rt, alloc, lines);
            self.hear(rt, alloc, form, (lines, told.as_str()), text.as_str());
            drop(text);
        }
        drop(told);
    }

    /// The line can't be read.
    fn refuse(&mut self, rt: &impl Abort, line: &str) {
        writeln!(self.otherwise, "{line} is no line of a story").expect(rt, "memory");
    }

    /// Of the file comes what is told, until other lines stand in a line's place.
    fn mend(&mut self, rt: &impl Abort, alloc: Global, form: Form, (edit, told): (&str, &str)) {
        let Some((old, new)) = edit.split_once(" -> ") else {
            return self.refuse(rt, edit);
        };
        let old = written(rt, alloc, old);
        let mended = edited(rt, alloc, self.file.as_str(), old.as_str(), new);
        drop(old);
        if mended.as_str() == self.file.as_str() {
            self.refuse(rt, edit);
        }
        let file = std::mem::replace(&mut self.file, mended);
        let told = written(rt, alloc, told);
        self.hear(rt, alloc, form, (edit, told.as_str()), file.as_str());
        drop(told);
        drop(file);
    }

    /// Of the file's prefixes of the told lengths comes this, and of no others.
    fn measure(&mut self, rt: &impl Abort, alloc: Global, form: Form, (what, told): (&str, &str)) {
        self.is_silent = false;
        let ends = ends_of(rt, alloc, form, self.file.as_str(), what);
        let came = ends.as_str().trim_end();
        if came != told {
            writeln!(self.otherwise, "ends {what} => {came}").expect(rt, "memory");
        }
        drop(ends);
    }

    /// The lines below stand in the place of this one.
    fn go(&mut self, rt: &impl Abort, line: &'s str) {
        self.place = Place::At(line);
        if !has_line(self.file.as_str(), line) {
            writeln!(self.otherwise, "{line} is no line of the file").expect(rt, "memory");
        }
    }

    /// The file gets the lines of the board that is called so.
    fn add_board(&mut self, rt: &impl Abort, name: &str) {
        match name {
            "bare" => push(rt, &mut self.file, BARE),
            "sample" => push(rt, &mut self.file, SAMPLE),
            _ => self.refuse(rt, name),
        }
    }

    /// The file gives way to one with no line. Something was told of it.
    fn clear(&mut self, rt: &impl Abort, alloc: Global) {
        self.end(rt);
        drop(std::mem::replace(&mut self.file, String::new(alloc)));
        self.place = Place::Behind("");
        self.is_silent = true;
    }

    /// A file of the form that is called so begins. Of the one before something was told.
    fn begin(&mut self, rt: &impl Abort, alloc: Global, name: &str, line: &str) {
        if self.form.is_some() {
            self.clear(rt, alloc);
        }
        self.form = Form::of(name);
        if self.form.is_none() {
            self.refuse(rt, line);
        }
    }

    /// Something was told of the file.
    fn end(&mut self, rt: &impl Abort) {
        if self.is_silent {
            push(rt, &mut self.otherwise, "nothing is told\n");
        }
    }

    /// Plays a line that tells what comes of these lines.
    fn tell_of(&mut self, rt: &impl Abort, alloc: Global, form: Form, (lines, told): (&str, &str)) {
        if let Some(edit) = lines.strip_prefix("until ") {
            return self.mend(rt, alloc, form, (edit, told));
        }
        match lines.strip_prefix("ends ") {
            Some(what) => self.measure(rt, alloc, form, (what, told)),
            None => self.hear_each(rt, alloc, form, (lines, told)),
        }
    }

    /// Plays a line that tells what comes.
    fn tell(&mut self, rt: &impl Abort, alloc: Global, form: Form, line: &str) {
        if let Some(told) = line.strip_prefix("=> ") {
            return self.hear_each(rt, alloc, form, ("", told));
        }
        match line.split_once(" => ") {
            Some(parts) => self.tell_of(rt, alloc, form, parts),
            None => self.refuse(rt, line),
        }
    }

    /// Plays a line of a file of this form.
    fn play_in(&mut self, rt: &impl Abort, alloc: Global, form: Form, line: &'s str) {
        let (word, rest) = line.split_once(' ').unwrap_or((line, ""));
        match word {
            "+" => {
                push(rt, &mut self.file, rest);
                push(rt, &mut self.file, "\n");
            }
            "with" => self.add_board(rt, rest),
            "at" => self.go(rt, rest),
            "behind" => self.place = Place::Behind(rest),
            _ => self.tell(rt, alloc, form, line),
        }
    }

    /// Plays a line.
    fn play(&mut self, rt: &impl Abort, alloc: Global, line: &'s str) {
        if line.is_empty() || line.starts_with('#') {
            return;
        }
        match (line.strip_prefix("file "), self.form) {
            (Some(name), _) => self.begin(rt, alloc, name, line),
            (None, Some(form)) => self.play_in(rt, alloc, form, line),
            (None, None) => self.refuse(rt, line),
        }
    }
}

/// What comes otherwise than the story tells it: a line each, and nothing where all comes so. A line of a story is one of these:
///
/// - `file FORM`: a file of this form begins, with no line. `Form::of` and `PartForm::of` have the forms;
/// - `+ LINE`: the file gets this line; `with bare`, `with sample`: it gets the lines of this board;
/// - `at LINE`: the lines below stand in the place of each line of the file that is this;
/// - `behind LINES`: they stand behind the file and these lines; `behind` alone, and no such line: behind the file;
/// - `LINES => WHAT`, `LINES | LINES => WHAT`: this comes of the whole with these lines, and with each of these; before `=> WHAT` there
///   may be nothing;
/// - `until LINE -> LINES => WHAT`: this comes of the file, and from then on these lines stand in the place of that line;
/// - `ends WHAT => LENGTHS`: this comes of the prefixes of the file that are so long, and of no others;
/// - `# ..`: a remark.
///
/// WHAT is what a fault is called; or `reads`; or `holds N PART`, where what is read shows this part so often; or all that it shows. A
/// plan shows how often frames are sent again, a colon and the requests of its steps, an undo text what is written of its list, and a journal what it keeps. What
/// is cut in two shows both parts with a bar between them. A file that is checked shows its lines and what came of it. The others show what Rust writes of them. In LINES and behind `=> `, `\n` is a
/// line feed and `\r` a carriage return, and `<N:PART>` is so many times the part, with its place, from 0, at each `#` in it.
fn otherwise(rt: &impl Abort, alloc: Global, story: &str) -> String {
    let mut player = Player {
        file: String::new(alloc),
        form: None,
        place: Place::Behind(""),
        is_silent: true,
        otherwise: String::new(alloc),
    };
    for line in story.lines() {
        player.play(rt, alloc, line);
    }
    player.end(rt);
    let Player {
        file,
        otherwise,
        ..
    } = player;
    drop(file);
    otherwise
}

/// The value is the one that is wanted.
pub fn expect_equal<T: Copy + Debug + PartialEq>(rt: &impl Abort, value: T, wanted: T) {
    assert_eq!(rt; value, wanted);
}

/// This comes otherwise than the story tells it.
pub fn expect_otherwise(rt: &impl Abort, alloc: Global, story: &str, said: &str) {
    let report = otherwise(rt, alloc, story);
    expect_equal(rt, report.as_str(), said);
    drop(report);
}
