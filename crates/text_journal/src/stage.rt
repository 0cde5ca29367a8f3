//! The line of the stage.
ghost use Rattle.std.specs.Prelude.{◌≡◌, ◌≢◌, ◌++◌, ℕ, List, true, false, IfSome, IfNone};
ghost use Rattle.undo_plans.specs.declared.kept_stage.KeptStage.{KeptStage as AnyStage};
ghost use Rattle.text_lines.specs.UndoText.{BeginsWith};
ghost use Rattle.text_journal.specs.declared.stage.StageWord.{StageWord as AnyWord};
ghost use Rattle.text_journal.specs.StageWords.{word_of, spelt};
ghost use Rattle.text_journal.specs.JournalLines.{stage_line, stage_step, stage_part, HasCode, IsSpelt};

use crate::line::first_numbers;
use model_undo::Why;
use text_lines::behind;
use two_wire::Code;
use undo_plans::{KeptStage, KeptTask};

/// The word of a stage. A halted plan has one for each reason.
#[derive(Clone, Copy)]
pub(crate) enum StageWord {
    Fresh,
    Get,
    Set,
    Undo,
    Done,
    Halted,
    SetRefused,
    NotRestorable,
    GetRefused,
    Undone,
    UndoRefused,
}

impl StageWord {
    /// How it is spelt, with what stands around it.
    pub(crate) fn spelt(self) -> &'static str
        ensures { result.now ≡ spelt self }
    {
        match self {
            StageWord::Fresh => "stage fresh ",
            StageWord::Get => "stage get ",
            StageWord::Set => "stage set ",
            StageWord::Undo => "stage undo ",
            StageWord::Done => "stage done ",
            StageWord::Halted => "stage halted ",
            StageWord::SetRefused => "stage set-refused ",
            StageWord::NotRestorable => "stage not-restorable ",
            StageWord::GetRefused => "stage get-refused ",
            StageWord::Undone => "stage undone ",
            StageWord::UndoRefused => "stage undo-refused ",
        }
    }
}

impl StageWord {
    /// The word of the stage.
    pub(crate) fn of(stage: &KeptStage) -> Self
        ensures { result ≡ word_of stage.now }
    {
        match stage {
            KeptStage::Fresh => StageWord::Fresh,
            KeptStage::Open {
                task: KeptTask::Get(_),
                ..
            } => StageWord::Get,
            KeptStage::Open {
                task: KeptTask::Set(_),
                ..
            } => StageWord::Set,
            KeptStage::Open {
                task: KeptTask::Undo(_),
                ..
            } => StageWord::Undo,
            KeptStage::Done => StageWord::Done,
            KeptStage::Halted(_, Why::Stop) => StageWord::Halted,
            KeptStage::Halted(_, Why::Refused(_)) => StageWord::SetRefused,
            KeptStage::Halted(_, Why::NotRestorable) => StageWord::NotRestorable,
            KeptStage::Halted(_, Why::GetRefused(_)) => StageWord::GetRefused,
            KeptStage::Undone => StageWord::Undone,
            KeptStage::UndoRefused(_, _) => StageWord::UndoRefused,
        }
    }
}

/// The step of the stage, or how many steps were acknowledged; 0 where there is none.
pub(crate) fn step_of(stage: &KeptStage) -> usize
    ensures { result ≡ stage_step stage.now }
{
    match stage {
        KeptStage::Open {
            task: KeptTask::Get(step) | KeptTask::Set(step) | KeptTask::Undo(step),
            ..
        } => *step,
        KeptStage::Halted(step, _) | KeptStage::UndoRefused(step, _) => *step,
        KeptStage::Fresh | KeptStage::Done | KeptStage::Undone => 0,
    }
}

/// The place of the stage's open request, or the code that refused one; 0 where there is none.
pub(crate) fn part_of(stage: &KeptStage) -> u8
    ensures value { result ≡ stage_part stage.now }
    ensures code { HasCode stage.now }
{
    match stage {
        KeptStage::Open { part, .. } => *part,
        KeptStage::Halted(_, Why::Refused(code) | Why::GetRefused(code)) => code.value(),
        KeptStage::UndoRefused(_, code) => code.value(),
        _ => 0,
    }
}

/// Whether the text begins with the word.
fn begins_with(text: &str, word: StageWord) -> bool
    ensures yes { result ≡ true → (rest : List ℕ) × (text.now ≡ spelt word ++ rest) }
    ensures no { result ≡ false → (rest : List ℕ) → text.now ≢ spelt word ++ rest }
{
    match behind(word.spelt(), text) {
        Some(_) => true,
        None => false,
    }
}

/// The word that the text begins with.
fn word_at(text: &str) -> Option<StageWord>
    ensures some { IfSome result (λ word. (rest : List ℕ) × (text.now ≡ spelt word ++ rest)) }
    ensures none { IfNone result ((word : AnyWord) (rest : List ℕ)
        → text.now ≢ spelt word ++ rest) }
{
    use StageWord::*;
    if begins_with(text, Fresh) {
        Some(Fresh)
    } else if begins_with(text, Get) {
        Some(Get)
    } else if begins_with(text, Set) {
        Some(Set)
    } else if begins_with(text, Undo) {
        Some(Undo)
    } else if begins_with(text, Done) {
        Some(Done)
    } else if begins_with(text, Halted) {
        Some(Halted)
    } else if begins_with(text, SetRefused) {
        Some(SetRefused)
    } else if begins_with(text, NotRestorable) {
        Some(NotRestorable)
    } else if begins_with(text, GetRefused) {
        Some(GetRefused)
    } else if begins_with(text, Undone) {
        Some(Undone)
    } else if begins_with(text, UndoRefused) {
        Some(UndoRefused)
    } else {
        None
    }
}

/// The stage with this task open.
fn opened(task: KeptTask, part: u8) -> KeptStage
    ensures { result ≡ AnyStage.Open task part }
{
    KeptStage::Open { task, part }
}

/// The stage of this word and these numbers: the step, or how many were acknowledged, and the place of the open request or a code. A number that
/// the stage hasn't is 0.
fn stage_of(word: StageWord, step: u32, part: u32) -> Option<KeptStage>
    ensures some { IfSome result (λ stage. IsSpelt stage × (word_of stage ≡ word)
        × (stage_step stage ≡ step) × (stage_part stage ≡ part)) }
    ensures none { IfNone result ((stage : AnyStage) → IsSpelt stage → word_of stage ≡ word
        → stage_step stage ≡ step → stage_part stage ≢ part) }
{
    if part > u32::from(u8::MAX) {
        return None;
    }
    let (place, part) = (step as usize, part as u8);
    match word {
        StageWord::Fresh => (step == 0 && part == 0).then_some(KeptStage::Fresh),
        StageWord::Get => Some(opened(KeptTask::Get(place), part)),
        StageWord::Set => Some(opened(KeptTask::Set(place), part)),
        StageWord::Undo => Some(opened(KeptTask::Undo(place), part)),
        StageWord::Done => (step == 0 && part == 0).then_some(KeptStage::Done),
        StageWord::Halted => (part == 0).then_some(KeptStage::Halted(place, Why::Stop)),
        StageWord::SetRefused => {
            let code = Code::new(part)?;
            Some(KeptStage::Halted(place, Why::Refused(code)))
        }
        StageWord::NotRestorable => {
            (part == 0).then_some(KeptStage::Halted(place, Why::NotRestorable))
        }
        StageWord::GetRefused => {
            let code = Code::new(part)?;
            Some(KeptStage::Halted(place, Why::GetRefused(code)))
        }
        StageWord::Undone => (step == 0 && part == 0).then_some(KeptStage::Undone),
        StageWord::UndoRefused => {
            let code = Code::new(part)?;
            Some(KeptStage::UndoRefused(place, code))
        }
    }
}

/// The stage on the text's first line, and the text behind that line.
pub(crate) fn first_stage(text: &str) -> Option<(KeptStage, &str)>
    ensures some { IfSome result (λ found. IsSpelt found.0
        × BeginsWith (λ line. line ≡ stage_line found.0) text.now found.1.now) }
    ensures none { IfNone result ((more : List ℕ) (stage : AnyStage) → IsSpelt stage
        → ¬ BeginsWith (λ line. line ≡ stage_line stage) text.now more) }
{
    let Some(word) = word_at(text) else {
        return None;
    };
    let Some(found) = first_numbers(word.spelt(), text) else {
        return None;
    };
    match stage_of(word, found.0.0, found.0.1) {
        Some(stage) => Some((stage, found.1)),
        None => None,
    }
}
