//! The texts of a backup's plans.
ghost use Rattle.std.specs.Prelude.{◌≡◌, IfOk, IfSome, string_bytes};
ghost use Rattle.shown_records.specs.KeptText.{IsPlanText};
ghost use Rattle.app_show.specs.Plans.{ArePlans, all_of, plans_of};

use crate::backup::{Backup, Remark};
use crate::texts::{Part, front_text, remarks_text};
use shown_records::write_plan;
use std::alloc::{AllocError, Global};
use undo_plans::Steps;

/// The text of this plan, which has these remarks behind its steps.
fn plan_text_of(
    alloc: Global,
    steps: &Steps,
    part: Part,
    remarks: &[Remark],
) -> Result<Option<String>, AllocError>
    ensures { IfOk result (λ told. IfSome told
        (λ text. IsPlanText (string_bytes text) steps.now)) }
{
    let front = front_text(alloc, part, steps.len())?;
    let behind = remarks_text(alloc, remarks)?;
    write_plan(alloc, front.as_str(), steps, behind.as_str())
}

/// The texts of the full plans. There are none where one of them isn't read as its steps.
fn full_texts(alloc: Global, full: &[Steps]) -> Result<Option<Vec<String>>, AllocError>
    ensures { IfOk result (λ told. IfSome told (λ texts. ArePlans texts.items full.now)) }
{
    let count = full.len().saturating_add(1);
    let mut texts = Vec::new(alloc);
    for place in 0..full.len() {
        let number = place + 1;
        let Some(text) = plan_text_of(alloc, &full[place], Part { number, count }, &[])? else {
            return Ok(None);
        };
        texts.push(text)?;
    }
    Ok(Some(texts))
}

/// The texts of a backup's plans. There are none where one of them isn't read as its steps.
pub(crate) fn plan_texts(alloc: Global, backup: &Backup) -> Result<Option<Vec<String>>, AllocError>
    ensures { IfOk result (λ told. IfSome told
        (λ texts. ArePlans texts.items (plans_of backup.now))) }
{
    let Some(mut texts) = full_texts(alloc, backup.full.as_slice())? else {
        return Ok(None);
    };
    let count = texts.len().saturating_add(1);
    let part = Part {
        number: count,
        count,
    };
    let last = plan_text_of(alloc, &backup.last, part, backup.remarks.as_slice())?;
    let Some(text) = last else {
        return Ok(None);
    };
    texts.push(text)?;
    Ok(Some(texts))
}

/// All texts, one behind another.
pub(crate) fn all_texts(alloc: Global, texts: &[String]) -> Result<String, AllocError>
    ensures { IfOk result (λ all. string_bytes all ≡ all_of texts.now) }
{
    let mut all = String::new(alloc);
    for text in texts {
        all.push_str(text.as_str())?;
    }
    Ok(all)
}

/// How many steps a backup has.
pub(crate) fn step_count(backup: &Backup) -> usize {
    let mut count = backup.last.len();
    for steps in backup.full.as_slice() {
        count = count.saturating_add(steps.len());
    }
    count
}
