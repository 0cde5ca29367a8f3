//! The fields of the records that a controller has once: the power restore policy, the watchdog timer, the global enables and the boot parameters.
ghost use Rattle.std.specs.Prelude.{◌≡◌};
ghost use Rattle.record_words.specs.ControllerFields as controller;

use crate::boot_way::{BootWay, other_flags};
use crate::field::{Field, Fields};
use crate::meaning::Meaning;
use crate::shown::{MaskedByte, Shown};
use crate::term::Term;
use record_base::mask::has;
use record_base::{
    BootChange, BootFlags, BootParameter, MaskedBits, SetBootParam, SetGlobalEnables,
    SetPowerPolicy, SetWatchdog,
};

/// The policy of these bits: 3 changes none.
fn policy(bits: u8) -> Shown
    ensures { result ≡ controller.policy bits }
{
    match bits {
        0 => Shown::Means(Meaning::AlwaysOff),
        1 => Shown::Means(Meaning::Previous),
        2 => Shown::Means(Meaning::AlwaysOn),
        3 => Shown::Kept,
        _ => Shown::Bits(bits),
    }
}

/// The field of an operation on the power restore policy.
pub(crate) fn power_policy(set: &SetPowerPolicy) -> Fields
    ensures { result ≡ controller.power_policy set.now }
{
    Fields::of(&[Field::whole(policy(set.policy % 8))])
}

/// What a timer is used for, by bits 2:0 of its first byte.
fn timer_use(bits: u8) -> Shown
    ensures { result ≡ controller.timer_use bits }
{
    match bits {
        0 => Shown::Means(Meaning::NoUse),
        1 => Shown::Means(Meaning::BiosFrb2),
        2 => Shown::Means(Meaning::BiosPost),
        3 => Shown::Means(Meaning::OsLoad),
        4 => Shown::Means(Meaning::SmsOs),
        5 => Shown::Means(Meaning::OemUse),
        _ => Shown::Bits(bits),
    }
}

/// The interrupt before a timer ends, by bits 6:4 of its second byte.
fn interrupt(bits: u8) -> Shown
    ensures { result ≡ controller.interrupt bits }
{
    match bits {
        0 => Shown::Means(Meaning::NoInterrupt),
        1 => Shown::Means(Meaning::Smi),
        2 => Shown::Means(Meaning::Nmi),
        3 => Shown::Means(Meaning::MessagingInterrupt),
        _ => Shown::Bits(bits),
    }
}

/// What is done when a timer ends, by bits 2:0 of its second byte.
fn action(bits: u8) -> Shown
    ensures { result ≡ controller.action bits }
{
    match bits {
        0 => Shown::Means(Meaning::NoAction),
        1 => Shown::Means(Meaning::HardReset),
        2 => Shown::Means(Meaning::PowerDown),
        3 => Shown::Means(Meaning::PowerCycle),
        _ => Shown::Bits(bits),
    }
}

/// Whether the bit is set; where it isn't, nothing is said of it.
fn where_set(byte: u8, place: usize) -> Shown
    requires { controller.IsPlace place }
    ensures { result ≡ controller.where_set byte place }
{
    if has(byte, place) {
        Shown::Switch(true)
    } else {
        Shown::Kept
    }
}

/// The expiration flags to clear, where there are some.
fn flags_to_clear(flags: u8) -> Shown
    ensures { result ≡ controller.flags_to_clear flags }
{
    if flags == 0 {
        Shown::Kept
    } else {
        Shown::Bits(flags)
    }
}

/// The fields of an operation on the watchdog timer.
pub(crate) fn watchdog(set: &SetWatchdog) -> Fields
    ensures { result ≡ controller.watchdog set.now }
{
    Fields::of(&[
        Field::of(Term::TimerUse, timer_use(set.timer_use % 8)),
        Field::of(Term::DoNotLog, Shown::Switch(has(set.timer_use, 7))),
        Field::of(Term::DoNotStop, where_set(set.timer_use, 6)),
        Field::of(Term::PreTimeoutInterrupt, interrupt(set.actions / 16 % 8)),
        Field::of(Term::TimeoutAction, action(set.actions % 8)),
        Field::of(
            Term::PreTimeoutInterval,
            Shown::Number(u32::from(set.pre_timeout)),
        ),
        Field::of(Term::FlagsToClear, flags_to_clear(set.flags_to_clear)),
        Field::of(
            Term::InitialCountdown,
            Shown::Number(u32::from(set.initial)),
        ),
    ])
}

/// The fields of an operation on the global enables.
pub(crate) fn global_enables(set: &SetGlobalEnables) -> Fields
    ensures { result ≡ controller.global_enables set.now }
{
    let byte = set.byte;
    Fields::of(&[
        Field::of(Term::MessageQueueInterrupt, Shown::Switch(has(byte, 0))),
        Field::of(Term::BufferFullInterrupt, Shown::Switch(has(byte, 1))),
        Field::of(Term::MessageBuffer, Shown::Switch(has(byte, 2))),
        Field::of(Term::EventLogging, Shown::Switch(has(byte, 3))),
        Field::of(Term::ReservedEnable, where_set(byte, 4)),
        Field::of(Term::FirstOem, Shown::Switch(has(byte, 5))),
        Field::of(Term::SecondOem, Shown::Switch(has(byte, 6))),
        Field::of(Term::ThirdOem, Shown::Switch(has(byte, 7))),
    ])
}

/// The fields of parameter 3.
pub(crate) fn clearing(invalid: bool, bits: Shown) -> Fields
    ensures { result ≡ controller.clearing invalid bits }
{
    Fields::of(&[
        Field::of(Term::ValidBitClearing, bits),
        Field::of(Term::ClearingInvalid, Shown::Switch(invalid)),
    ])
}

/// Those of parameter 4.
pub(crate) fn acknowledge(invalid: bool, bits: Shown) -> Fields
    ensures { result ≡ controller.acknowledge invalid bits }
{
    Fields::of(&[
        Field::of(Term::InfoAcknowledge, bits),
        Field::of(Term::AcknowledgeInvalid, Shown::Switch(invalid)),
    ])
}

/// Those of parameter 5.
fn flags(invalid: bool, device: Shown, others: Shown) -> Fields
    ensures { result ≡ controller.flags invalid device others }
{
    Fields::of(&[
        Field::of(Term::BootDevice, device),
        Field::of(Term::OtherBootFlags, others),
        Field::of(Term::FlagsInvalid, Shown::Switch(invalid)),
    ])
}

/// The masked bits, where the mask has some.
fn masked(bits: MaskedBits) -> Shown
    ensures { result ≡ controller.masked bits }
{
    if bits.mask == 0 {
        return Shown::Kept;
    }
    Shown::Masked(MaskedByte {
        mask: bits.mask,
        bits: bits.bits & bits.mask,
    })
}

/// The fields of an operation that leaves the data of a boot parameter.
fn mark_alone(invalid: bool, parameter: BootParameter) -> Fields
    ensures { result ≡ controller.mark_alone invalid parameter }
{
    match parameter {
        BootParameter::ValidBitClearing => clearing(invalid, Shown::Kept),
        BootParameter::InfoAcknowledge => acknowledge(invalid, Shown::Kept),
        BootParameter::Flags => flags(invalid, Shown::Kept, Shown::Kept),
    }
}

/// The fields of an operation that sets the boot flags.
pub(crate) fn boot_flags(invalid: bool, to: &BootFlags) -> Fields
    ensures { result ≡ controller.boot_flags invalid to.now }
{
    flags(
        invalid,
        Shown::Boot(BootWay::of(to)),
        Shown::Bytes(other_flags(to)),
    )
}

/// The fields of an operation on a boot parameter.
pub(crate) fn boot_param(set: &SetBootParam) -> Fields
    ensures { result ≡ controller.boot_param set.now }
{
    match &set.change {
        BootChange::MarkAlone(parameter) => mark_alone(set.invalid, *parameter),
        BootChange::ValidBitClearing(byte) => clearing(set.invalid, Shown::Bits(*byte % 32)),
        BootChange::InfoAcknowledge(bits) => acknowledge(set.invalid, masked(*bits)),
        BootChange::Flags(to) => boot_flags(set.invalid, to),
    }
}
