//! The player of stories of plays, frames and command lines.
use super::expect_equal;
use super::runs::push_came;
use super::scene::Scene;
use super::text::{parted, push_lines};
use app_base::UnreadFile;
use std::alloc::{AllocError, Global};
use std::process::Abort;
use stories::{NoOutcome, SAMPLE};

/// What of a text was played, and what came otherwise than told.
///
/// A text has lines at the margin, each with the lines below it that two spaces set in. At the margin stands one of these:
///
/// - `# ..`: a remark;
/// - `part NAME`: the lines have this name;
/// - `story NAME`: a story begins, with no board, an empty plan, an empty schedule and writers that don't fail;
/// - `board`, `plan`, `schedule`: the lines are this text of the story;
/// - `then`: with these lines the schedule goes on;
/// - `make RUN`: the schedule is what this run writes, which ends with 0;
/// - `same RUN`: this run writes the schedule, too, and ends with 0; `other RUN` is one that writes another;
/// - `swap OLD => NEW`: in the board NEW stands in the place of the first OLD;
/// - `unreadable plan`, `memory plan`: the file of the plan can't be read, or memory for it is refused;
/// - `fails out 3`: the writer of standard output, or of `err`, fails once, behind three calls, in each run from here on;
/// - `RUN -> 0 out`: the run ends with this status, and writes the lines to this stream (`out` or `err`) and nothing to the other, nor to
///   both where none is named; behind `cut` the last line has no end;
/// - `asks bmclab WORDS -> ..`: the command line asks for this;
/// - `names BUS HEX -> ..`: the words name this frame.
///
/// A run is one of these:
///
/// - `lines`: a play of the three texts; `frames` is one with its frames, `premises` one that says whether the premise on packets was kept,
///   and `chart` one that is drawn, as is `show`;
/// - `ipmb HEX`, `smbus ..`: a frame that is sent to the board, or to the sample board where the story has none;
/// - `bmclab WORDS`: this command line, where the files `board.toml`, `plan.toml` and `schedule.txt` hold the texts; in a word `~` stands for a
///   space, and `''` is an empty word; `notes bmclab WORDS` is what it notes, and `terminal bmclab WORDS` what it notes on a terminal;
/// - `late SEED`: the schedule that is drawn from the seed where packets may join late ones;
/// - `call NAME`, `refuse WHAT`: a call over these files, and a refusal by itself.
///
/// `plan events fan` begins with the lines of these parts; the part `sample` is the sample board, and `rack` is it without attributes.
/// Behind `: ` the first of the lines may stand. In a line ` / ` separates several; `3 x
/// tick` is three lines; `{3*00}` is `000000`; in the copies that are made so, `{5+2}` is 5, then 7, and `{x5-1}` is `05`, then `04`. Of what is
/// written, `..` stands for anything.
#[derive(Drop)]
struct Player<'s> {
    alloc: Global,
    /// Lines that have a name.
    parts: Vec<(&'s str, String)>,
    scene: Scene,
    /// The story's name, and whether any of it was played.
    story: &'s str,
    is_played: bool,
    /// What the line at the margin says before its arrow and its lines, its number, and what it tells with the lines below it.
    head: &'s str,
    number: usize,
    body: String,
    /// What came of the line.
    came: String,
    /// What came otherwise.
    told: String,
}

/// Whether this came, where this was wanted: `..` stands for anything.
fn agrees(came: &str, wanted: &str) -> bool {
    match wanted.split_once("..") {
        Some((front, back)) => {
            let least = front.len().saturating_add(back.len());
            came.len() >= least && came.starts_with(front) && came.ends_with(back)
        }
        None => came == wanted,
    }
}

/// The lines of this name.
fn part_of<'p>(parts: &'p [(&str, String)], name: &str) -> Option<&'p str> {
    for (held, lines) in parts {
        if *held == name {
            return Some(lines.as_str());
        }
    }
    None
}

/// Whether a run of which this came wrote the schedule of the scene, or another where that is asked for.
fn writes(scene: &Scene, came: &str, is_same: bool) -> bool {
    match (came.strip_prefix("0 out\n"), scene.file("schedule.txt")) {
        (Some(written), Ok(schedule)) => (written == schedule) == is_same,
        _ => false,
    }
}

/// The words that name lines of a story, which may begin with those of parts.
const TAKE_PARTS: [&str; 4] = ["board", "plan", "schedule", "then"];

impl<'s> Player<'s> {
    /// Nothing was played yet.
    fn new(alloc: Global) -> Player<'s> {
        Player {
            alloc,
            parts: Vec::new(alloc),
            scene: Scene::new(alloc),
            story: "",
            is_played: false,
            head: "",
            number: 0,
            body: String::new(alloc),
            came: String::new(alloc),
            told: String::new(alloc),
        }
    }

    /// Something came otherwise than told.
    fn tell(&mut self, what: &str) -> Result<(), AllocError> {
        writeln!(self.told, "{}, line {}: {what}", self.story, self.number)
    }

    /// What came is told.
    fn tell_came(&mut self) -> Result<(), AllocError> {
        let (story, number) = (self.story, self.number);
        write!(
            self.told,
            "{story}, line {number}: came {}",
            self.came.as_str()
        )
    }

    /// What comes of the line is what it tells.
    fn expect(&mut self) -> Result<(), NoOutcome> {
        self.is_played = true;
        push_came(self.alloc, &self.scene, self.head, &mut self.came)?;
        if !agrees(self.came.as_str(), self.body.as_str()) {
            self.tell_came()?;
        }
        self.body.clear();
        Ok(())
    }

    /// The schedule is what the run writes.
    fn make(&mut self, run: &str) -> Result<(), NoOutcome> {
        push_came(self.alloc, &self.scene, run, &mut self.came)?;
        match self.came.as_str().strip_prefix("0 out\n") {
            Some(schedule) => {
                let text = String::from_str(self.alloc, schedule)?;
                self.scene.put("schedule", Ok(text))
            }
            None => Ok(self.tell_came()?),
        }
    }

    /// The run writes the schedule, or another.
    fn compare(&mut self, run: &str, is_same: bool) -> Result<(), NoOutcome> {
        self.is_played = true;
        push_came(self.alloc, &self.scene, run, &mut self.came)?;
        if !writes(&self.scene, self.came.as_str(), is_same) {
            self.tell_came()?;
        }
        Ok(())
    }

    /// A story begins. Of the one before, if there was one, something was played.
    fn begin_story(&mut self, name: &'s str) -> Result<(), NoOutcome> {
        if !self.is_played && self.story != "" {
            self.tell("nothing was played")?;
        }
        self.is_played = false;
        self.story = name;
        drop(std::mem::replace(&mut self.scene, Scene::new(self.alloc)));
        Ok(())
    }

    /// The lines, of which nothing is left.
    fn take_body(&mut self) -> String {
        let body = String::new(self.alloc);
        std::mem::replace(&mut self.body, body)
    }

    /// The lines have this name from here on, which no others have.
    fn put_part(&mut self, name: &'s str) -> Result<(), NoOutcome> {
        if part_of(self.parts.as_slice(), name).is_some() {
            return Err(NoOutcome::Unread);
        }
        let body = self.take_body();
        match self.parts.push((name, body)) {
            Ok(()) => Ok(()),
            Err(_) => Err(NoOutcome::Memory),
        }
    }

    /// The sample board's lines, and those of it without its attributes, have names.
    fn put_sample(&mut self) -> Result<(), NoOutcome> {
        let (rack, _) = SAMPLE.split_once("[[attribute]]").unwrap_or((SAMPLE, ""));
        self.body.push_str(SAMPLE)?;
        self.put_part("sample")?;
        self.body.push_str(rack)?;
        self.put_part("rack")
    }

    /// The schedule goes on with the lines.
    fn go_on(&mut self) -> Result<(), NoOutcome> {
        self.scene.go_on(self.body.as_str())?;
        self.body.clear();
        Ok(())
    }

    /// The lines are this text of the story.
    fn put_text(&mut self, name: &str) -> Result<(), NoOutcome> {
        let body = self.take_body();
        self.scene.put(name, Ok(body))
    }

    /// The line at the margin is played, with the lines below it.
    fn play(&mut self) -> Result<(), NoOutcome> {
        let (word, rest) = parted(self.head);
        match word {
            "" | "#" => Ok(()),
            "story" => self.begin_story(rest),
            "part" => self.put_part(rest),
            "board" | "plan" | "schedule" => self.put_text(word),
            "then" => self.go_on(),
            "make" => self.make(rest),
            "same" => self.compare(rest, true),
            "other" => self.compare(rest, false),
            "swap" => self.scene.swap(rest),
            "fails" => self.scene.fail(rest),
            "unreadable" => self.scene.put(rest, Err(UnreadFile::NoText)),
            "memory" => self.scene.put(rest, Err(UnreadFile::Memory)),
            _ => self.expect(),
        }
    }

    /// What can't be read is told, and nothing of it is left.
    fn note(&mut self, read: Result<(), NoOutcome>) -> Result<(), NoOutcome> {
        match read {
            Err(NoOutcome::Unread) => {
                self.head = "";
                self.body.clear();
                Ok(self.tell("can't be read")?)
            }
            read => read,
        }
    }

    /// The line at the margin is played, and none of the lines below it is left.
    fn finish(&mut self) -> Result<(), NoOutcome> {
        self.came.clear();
        match self.play() {
            Ok(()) if !self.body.is_empty() => self.note(Err(NoOutcome::Unread)),
            played => self.note(played),
        }
    }

    /// Appends the lines of the parts that the line at the margin names.
    fn push_parts(&mut self) -> Result<(), NoOutcome> {
        let (word, names) = parted(self.head);
        if !TAKE_PARTS.contains(&word) {
            return Ok(());
        }
        for name in names.split_whitespace() {
            let part = part_of(self.parts.as_slice(), name).ok_or(NoOutcome::Unread)?;
            self.body.push_str(part)?;
        }
        Ok(())
    }

    /// A line at the margin: what it tells behind its arrow, the lines of its parts, and what stands in it behind `: `, come first.
    fn begin(&mut self, number: usize, line: &'s str) -> Result<(), NoOutcome> {
        self.number = number;
        self.head = line;
        self.body.clear();
        if line.starts_with("# ") || line.starts_with("story ") {
            return Ok(());
        }
        let (head, lines) = line.split_once(": ").unwrap_or((line, ""));
        let (head, told) = head.split_once(" -> ").unwrap_or((head, ""));
        self.head = head;
        push_lines(&mut self.body, told)?;
        self.push_parts()?;
        push_lines(&mut self.body, lines)
    }

    /// The next line of the text.
    fn take(&mut self, number: usize, line: &'s str) -> Result<(), NoOutcome> {
        let read = match line.strip_prefix("  ") {
            Some(line) => push_lines(&mut self.body, line),
            None => {
                self.finish()?;
                self.begin(number, line)
            }
        };
        self.note(read)
    }

    /// The text's lines are played.
    fn take_all(&mut self, text: &'s str) -> Result<(), NoOutcome> {
        let mut number = 0usize;
        for line in text.split('\n') {
            number = number.saturating_add(1);
            self.take(number, line)?;
        }
        self.finish()
    }

    /// The lines of the stories are played, behind those of the parts. A text in which nothing is played came otherwise too.
    fn take_both(&mut self, parts: &'s str, stories: &'s str) -> Result<(), NoOutcome> {
        self.put_sample()?;
        self.take_all(parts)?;
        self.take_all(stories)?;
        if self.is_played {
            return Ok(());
        }
        Ok(self.tell("nothing was played")?)
    }
}

/// The stories are played, behind the parts. This came otherwise than told, each in a line: the story, the number of the line, and what
/// came.
pub fn expect_otherwise(rt: &impl Abort, alloc: Global, parts: &str, stories: &str, told: &str) {
    let mut player = Player::new(alloc);
    player.take_both(parts, stories).expect(rt, "memory");
    expect_equal(rt, player.told.as_str(), told);
    drop(player);
}
