//! Which lines of stories come otherwise than told.
use crate::scene::{NoOutcome, NoScene, Scene};
use crate::words::spelled;
use std::alloc::{AllocError, Global};

/// Whether the line tells nothing: it is empty, or a remark.
fn is_remark(line: &str) -> bool {
    line.is_empty() || line.starts_with('#')
}

/// What comes of the line, where that isn't what it tells.
fn otherwise<S: Scene>(
    alloc: Global,
    scene: &mut S,
    line: &str,
) -> Result<Option<String>, NoOutcome> {
    let (what, told) = line.split_once(" ->").unwrap_or((line, ""));
    let what = spelled(alloc, what)?;
    let told = spelled(alloc, told)?;
    let mut came = String::new(alloc);
    scene.come(alloc, what.as_str(), &mut came)?;
    let came = spelled(alloc, came.as_str())?;
    if S::is_told(alloc, came.as_str(), told.as_str())? {
        return Ok(None);
    }
    Ok(Some(came))
}

/// Reports what came of a line.
fn push_came(
    report: &mut String,
    (story, line): (&str, &str),
    came: &str,
) -> Result<(), AllocError> {
    let came = if came.is_empty() { "nothing" } else { came };
    writeln!(report, "{story}: {line} | came {came}")
}

/// Reports what comes of the line, where that isn't what it tells.
fn tell<S: Scene>(
    alloc: Global,
    scene: &mut S,
    (story, line): (&str, &str),
    report: &mut String,
) -> Result<(), AllocError> {
    match otherwise(alloc, scene, line) {
        Ok(None) => Ok(()),
        Ok(Some(came)) => push_came(report, (story, line), came.as_str()),
        Err(NoOutcome::Unread) => writeln!(report, "{story}: {line} | unread"),
        Err(NoOutcome::Memory) => Err(AllocError),
    }
}

/// The lines come to the story's scene.
fn tell_lines<S: Scene>(
    alloc: Global,
    scene: &mut S,
    (story, lines): (&str, &str),
    report: &mut String,
) -> Result<(), AllocError> {
    let mut any = false;
    for line in lines.lines() {
        if !is_remark(line) {
            tell(alloc, scene, (story, line), report)?;
            any = true;
        }
    }
    if any {
        return Ok(());
    }
    writeln!(report, "{story}: no line")
}

/// The story is told: its first line is its name.
fn tell_story<S: Scene>(alloc: Global, text: &str, report: &mut String) -> Result<(), AllocError> {
    let (story, lines) = text.split_once('\n').unwrap_or((text, ""));
    match S::open(alloc, lines) {
        Ok(mut scene) => tell_lines(alloc, &mut scene, (story, lines), report),
        Err(NoScene::Fault(fault)) => writeln!(report, "{story}: no scene: {}", fault.as_str()),
        Err(NoScene::Memory) => Err(AllocError),
    }
}

/// Before the first story only remarks stand.
fn tell_head(head: &str, report: &mut String) -> Result<(), AllocError> {
    for line in head.lines() {
        if !is_remark(line) {
            writeln!(report, "{line} | no story")?;
        }
    }
    Ok(())
}

/// What stands before the first story, and the stories.
fn stories_of(text: &str) -> Option<(&str, &str)> {
    match text.strip_prefix("story ") {
        Some(stories) => Some(("", stories)),
        None => text.split_once("\nstory "),
    }
}

/// Plays the stories of the text, each on a scene of its own, and gives a line for each line of theirs that comes otherwise than told:
/// `STORY: LINE | came WHAT`, or `STORY: LINE | unread` where the scene has no such line. So it gives nothing where all comes as told. A
/// line `story NAME` begins a story. Empty lines and lines behind `#` are remarks. A word with `*` and a decimal number behind it comes so
/// often, before the arrow and behind it: `00*3` is `00 00 00`. A story without a line or without a scene, a line
/// before the first story and a text without a story come otherwise, too.
pub fn report_of<S: Scene>(alloc: Global, text: &str) -> Result<String, AllocError> {
    let mut report = String::new(alloc);
    let Some((head, stories)) = stories_of(text) else {
        report.push_str("no story\n")?;
        return Ok(report);
    };
    tell_head(head, &mut report)?;
    for story in stories.split("\nstory ") {
        tell_story::<S>(alloc, story, &mut report)?;
    }
    Ok(report)
}
