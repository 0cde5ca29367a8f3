//! What the Gets of a controller's own records show behind an operation.
ghost use Rattle.std.specs.Prelude.{◌≡◌, ◌∷◌, [], IfOk};
ghost use Rattle.record_base.specs.BootParam.{parameter_of};
ghost use Rattle.watch_boot.specs.BootParam.{marked};
ghost use Rattle.shown_records.specs.Settings.{after_attribute, after_boot_param, after_policy, after_watchdog, status_after};

use crate::slices::behind;
use record_base::attribute_sizes::BEFORE_VALUE;
use record_base::{
    BootChange, BootParameter, SetBiosAttribute, SetBootParam, SetGlobalEnables, SetPowerPolicy,
    SetWatchdog, byte_at,
};
use std::alloc::{AllocError, Global};

/// The first policy that changes nothing, and none behind it is known.
const UNKNOWN_POLICY: u8 = 3;

/// The bit of a timer use byte that says whether the timer runs.
const RUNNING_BIT: u8 = 64;

/// The first byte of a status, where it was this one: bits 6:5 are the policy.
fn status_after(op: &SetPowerPolicy, old: u8) -> u8
    ensures { result ≡ status_after op.now old }
{
    let policy = op.policy % 8;
    if policy < UNKNOWN_POLICY {
        old / 128 * 128 + policy * 32 + old % 32
    } else {
        old
    }
}

/// The first byte has the policy.
pub(crate) fn power_policy(
    alloc: Global,
    op: &SetPowerPolicy,
    shown: &[u8],
) -> Result<Vec<u8>, AllocError>
    ensures { IfOk result (λ after. after.items ≡ after_policy op.now shown.now) }
{
    let status = status_after(op, byte_at(shown, 0));
    Vec::from_slice(alloc, &[status, byte_at(shown, 1), byte_at(shown, 2)])
}

/// The settings are the operation's. The flags, the rest of the countdown and whether the timer runs are no settings.
pub(crate) fn watchdog(alloc: Global, op: &SetWatchdog, shown: &[u8]) -> Result<Vec<u8>, AllocError>
    ensures { IfOk result (λ after. after.items ≡ after_watchdog op.now shown.now) }
{
    let kept_use = op.timer_use / 128 * 128 + op.timer_use % 8;
    let timer_use = kept_use + byte_at(shown, 0) / RUNNING_BIT % 2 * RUNNING_BIT;
    let actions = op.actions / 16 % 8 * 16 + op.actions % 8;
    let flags = byte_at(shown, 3);
    let [low, high] = op.initial.to_le_bytes();
    let [low_left, high_left] = [byte_at(shown, 6), byte_at(shown, 7)];
    let after = [
        timer_use,
        actions,
        op.pre_timeout,
        flags,
        low,
        high,
        low_left,
        high_left,
    ];
    Vec::from_slice(alloc, &after)
}

/// The byte is the operation's.
pub(crate) fn global_enables(alloc: Global, op: &SetGlobalEnables) -> Result<Vec<u8>, AllocError>
    ensures { IfOk result (λ after. after.items ≡ op.now.byte ∷ []) }
{
    Vec::from_slice(alloc, &[op.byte])
}

/// The parameter that the change changes.
fn parameter_of(change: &BootChange) -> BootParameter
    ensures { result ≡ parameter_of change.now }
{
    match change {
        BootChange::MarkAlone(parameter) => *parameter,
        BootChange::ValidBitClearing(_) => BootParameter::ValidBitClearing,
        BootChange::InfoAcknowledge(_) => BootParameter::InfoAcknowledge,
        BootChange::Flags(_) => BootParameter::Flags,
    }
}

/// The selector with the mark in bit 7.
fn marked(invalid: bool, parameter: BootParameter) -> u8
    ensures { result ≡ marked invalid parameter }
{
    let selector = match parameter {
        BootParameter::ValidBitClearing => 3,
        BootParameter::InfoAcknowledge => 4,
        BootParameter::Flags => 5,
    };
    if invalid { 128 + selector } else { selector }
}

/// The mark beside the selector is the operation's, and so are the data that it gives.
pub(crate) fn boot_param(
    alloc: Global,
    op: &SetBootParam,
    shown: &[u8],
) -> Result<Vec<u8>, AllocError>
    ensures { IfOk result (λ after. after.items ≡ after_boot_param op.now shown.now) }
{
    let marked = marked(op.invalid, parameter_of(&op.change));
    let mut after = Vec::from_slice(alloc, &[byte_at(shown, 0), marked])?;
    match &op.change {
        BootChange::MarkAlone(_) => after.extend_from_slice(behind(shown, 2))?,
        BootChange::ValidBitClearing(byte) => after.push(byte % 32)?,
        BootChange::InfoAcknowledge(masked) => {
            let old = byte_at(shown, 3);
            let bits = old ^ ((old ^ masked.bits) & masked.mask);
            after.extend_from_slice(&[byte_at(shown, 2), bits])?;
        }
        BootChange::Flags(flags) => after.extend_from_slice(&flags.bytes())?,
    }
    Ok(after)
}

/// The value behind an attribute's handle and type is the operation's.
pub(crate) fn attribute(
    alloc: Global,
    op: &SetBiosAttribute<'_>,
    shown: &[u8],
) -> Result<Vec<u8>, AllocError>
    ensures { IfOk result (λ after. after.items ≡ after_attribute op.now shown.now) }
{
    let head = if shown.len() < BEFORE_VALUE {
        shown
    } else {
        &shown[..BEFORE_VALUE]
    };
    let mut after = Vec::from_slice(alloc, head)?;
    after.extend_from_slice(op.value.as_slice())?;
    Ok(after)
}
