//! A step as a plan has it.
use crate::controller_steps::{
    push_attribute, push_boot, push_enables, push_policy, push_watchdog,
};
use crate::effecter_steps::{push_numeric, push_states};
use crate::plan_texts::push_word;
use crate::sensor_steps::{push_event_enable, push_hysteresis, push_thresholds};
use crate::user_steps::{push_channel_access, push_lan_param, push_user_access, push_user_name};
use plan_file::Kind;
use record_base::Op;
use record_words::{Way, op_in_words};
use std::alloc::{AllocError, Global};

/// Adds the fields of the operation's kind.
fn push_fields(alloc: Global, text: &mut String, op: &Op<'_>) -> Result<(), AllocError> {
    match op {
        Op::Thresholds(set) => push_thresholds(text, set),
        Op::Hysteresis(set) => push_hysteresis(text, set),
        Op::EventEnable(set) => push_event_enable(alloc, text, set),
        Op::PowerPolicy(set) => push_policy(text, set),
        Op::Watchdog(set) => push_watchdog(text, set),
        Op::GlobalEnables(set) => push_enables(text, set),
        Op::BootParam(set) => push_boot(text, set),
        Op::NumericEffecter(set) => push_numeric(text, set),
        Op::StateEffecter(set) => push_states(text, set),
        Op::UserName(set) => push_user_name(text, set),
        Op::UserAccess(set) => push_user_access(text, set),
        Op::ChannelAccess(set) => push_channel_access(text, set),
        Op::BiosAttribute(set) => push_attribute(text, set),
        Op::LanParam(set) => push_lan_param(text, set),
    }
}

/// Adds the step that carries the operation out, below a line that says it in words.
pub(crate) fn push_step(alloc: Global, text: &mut String, op: &Op<'_>) -> Result<(), AllocError> {
    let words = op_in_words(Way::There, op, None);
    writeln!(text, "# {words}")?;
    text.push_str("[[step]]\n")?;
    push_word(text, "kind", Kind::of(op).word())?;
    push_fields(alloc, text, op)
}
