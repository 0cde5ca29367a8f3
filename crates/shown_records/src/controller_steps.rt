//! Steps on a controller's own records.
use crate::plan_texts::{push_byte, push_flag, push_list, push_number, push_text};
use record_base::attribute_value::{AttributeValue, value_in};
use record_base::{
    BootChange, BootParameter, SetBiosAttribute, SetBootParam, SetGlobalEnables, SetPowerPolicy,
    SetWatchdog,
};
use std::alloc::AllocError;

/// Adds the fields of a step that sets the power restore policy.
pub(crate) fn push_policy(text: &mut String, set: &SetPowerPolicy) -> Result<(), AllocError> {
    push_number(text, "policy", u64::from(set.policy))
}

/// Adds the fields of a step that sets the global enables.
pub(crate) fn push_enables(text: &mut String, set: &SetGlobalEnables) -> Result<(), AllocError> {
    push_byte(text, "value", set.byte)
}

/// Adds the fields of a step that sets the watchdog timer.
pub(crate) fn push_watchdog(text: &mut String, set: &SetWatchdog) -> Result<(), AllocError> {
    push_number(text, "use", u64::from(set.timer_use % 8))?;
    push_flag(text, "no_log", set.timer_use >= 128)?;
    push_number(text, "action", u64::from(set.actions % 8))?;
    push_number(text, "interrupt", u64::from(set.actions / 16 % 8))?;
    push_number(text, "pre", u64::from(set.pre_timeout))?;
    push_number(text, "initial", u64::from(set.initial))
}

/// The selector of a parameter.
fn selector(parameter: BootParameter) -> u64 {
    match parameter {
        BootParameter::ValidBitClearing => 3,
        BootParameter::InfoAcknowledge => 4,
        BootParameter::Flags => 5,
    }
}

/// The parameter that the change changes.
fn parameter_of(change: &BootChange) -> BootParameter {
    match change {
        BootChange::MarkAlone(parameter) => *parameter,
        BootChange::ValidBitClearing(_) => BootParameter::ValidBitClearing,
        BootChange::InfoAcknowledge(_) => BootParameter::InfoAcknowledge,
        BootChange::Flags(_) => BootParameter::Flags,
    }
}

/// Adds the fields of a step that sets a boot parameter.
pub(crate) fn push_boot(text: &mut String, set: &SetBootParam) -> Result<(), AllocError> {
    push_number(text, "param", selector(parameter_of(&set.change)))?;
    push_flag(text, "invalid", set.invalid)?;
    match &set.change {
        BootChange::MarkAlone(_) => Ok(()),
        BootChange::ValidBitClearing(byte) => push_list(text, "data", &[*byte]),
        BootChange::InfoAcknowledge(masked) => {
            push_list(text, "data", &[masked.mask, masked.bits])
        }
        BootChange::Flags(flags) => push_list(text, "data", &flags.bytes()),
    }
}

/// Adds the fields of a step that sets the value of an attribute. Bytes that are no value are left
/// out.
pub(crate) fn push_attribute(
    text: &mut String,
    set: &SetBiosAttribute<'_>,
) -> Result<(), AllocError> {
    push_number(text, "handle", u64::from(set.attribute))?;
    match value_in(set.attribute_type, set.value.as_slice()) {
        Some(AttributeValue::Indexes(indexes)) => push_list(text, "indexes", indexes.as_slice()),
        Some(AttributeValue::Text(bytes)) => push_text(text, "text", bytes.as_slice()),
        Some(AttributeValue::Number(number)) => push_number(text, "number", number),
        None => Ok(()),
    }
}
