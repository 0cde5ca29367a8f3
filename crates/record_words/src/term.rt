//! The names of a record's fields, in the standard's terms (IPMI 2.0).
ghost use Rattle.std.specs.Prelude.{◌≡◌};
ghost use Rattle.record_words.specs.Terms.{term_words};

use std::fmt;

/// The name of a field.
#[derive(Clone, Copy, Debug, PartialEq, Eq)]
pub enum Term {
    LowerNonCritical,
    LowerCritical,
    LowerNonRecoverable,
    UpperNonCritical,
    UpperCritical,
    UpperNonRecoverable,
    PositiveHysteresis,
    NegativeHysteresis,
    EventMessages,
    Scanning,
    AssertionEvents,
    DeassertionEvents,
    EnableAssertions,
    EnableDeassertions,
    DisableAssertions,
    DisableDeassertions,
    Selection,
    TimerUse,
    DoNotLog,
    DoNotStop,
    PreTimeoutInterrupt,
    TimeoutAction,
    PreTimeoutInterval,
    FlagsToClear,
    InitialCountdown,
    MessageQueueInterrupt,
    BufferFullInterrupt,
    MessageBuffer,
    EventLogging,
    ReservedEnable,
    FirstOem,
    SecondOem,
    ThirdOem,
    ClearingInvalid,
    AcknowledgeInvalid,
    FlagsInvalid,
    ValidBitClearing,
    InfoAcknowledge,
    BootDevice,
    OtherBootFlags,
    UserName,
    CallbackOnly,
    LinkAuthentication,
    IpmiMessaging,
    PrivilegeLimit,
    SessionLimit,
    AccessMode,
    UserLevelAuthentication,
    PerMessageAuthentication,
    PefAlerting,
    IpAddress,
    AddressSource,
    SubnetMask,
    DefaultGateway,
    VlanId,
    VlanUse,
}

impl Term {
    /// The words.
    pub fn spelt(self) -> &'static str
        ensures { result.now ≡ term_words self }
    {
        match self {
            Term::LowerNonCritical => "lower non-critical",
            Term::LowerCritical => "lower critical",
            Term::LowerNonRecoverable => "lower non-recoverable",
            Term::UpperNonCritical => "upper non-critical",
            Term::UpperCritical => "upper critical",
            Term::UpperNonRecoverable => "upper non-recoverable",
            Term::PositiveHysteresis => "positive-going hysteresis",
            Term::NegativeHysteresis => "negative-going hysteresis",
            Term::EventMessages => "event messages",
            Term::Scanning => "scanning",
            Term::AssertionEvents => "assertion events",
            Term::DeassertionEvents => "deassertion events",
            Term::EnableAssertions => "enable assertion events",
            Term::EnableDeassertions => "enable deassertion events",
            Term::DisableAssertions => "disable assertion events",
            Term::DisableDeassertions => "disable deassertion events",
            Term::Selection => "selection",
            Term::TimerUse => "use",
            Term::DoNotLog => "don't log",
            Term::DoNotStop => "don't stop",
            Term::PreTimeoutInterrupt => "pre-timeout interrupt",
            Term::TimeoutAction => "timeout action",
            Term::PreTimeoutInterval => "pre-timeout interval in s",
            Term::FlagsToClear => "expiration flags to clear",
            Term::InitialCountdown => "initial countdown in 100 ms",
            Term::MessageQueueInterrupt => "receive message queue interrupt",
            Term::BufferFullInterrupt => "event message buffer full interrupt",
            Term::MessageBuffer => "event message buffer",
            Term::EventLogging => "system event logging",
            Term::ReservedEnable => "reserved bit 4",
            Term::FirstOem => "OEM 0",
            Term::SecondOem => "OEM 1",
            Term::ThirdOem => "OEM 2",
            Term::ClearingInvalid => "flag valid bit clearing marked invalid",
            Term::AcknowledgeInvalid => "info acknowledge marked invalid",
            Term::FlagsInvalid => "flags marked invalid",
            Term::ValidBitClearing => "flag valid bit clearing",
            Term::InfoAcknowledge => "info acknowledge",
            Term::BootDevice => "device",
            Term::OtherBootFlags => "other flags",
            Term::UserName => "name",
            Term::CallbackOnly => "restricted to callback",
            Term::LinkAuthentication => "link authentication",
            Term::IpmiMessaging => "IPMI messaging",
            Term::PrivilegeLimit => "privilege limit",
            Term::SessionLimit => "session limit",
            Term::AccessMode => "access mode",
            Term::UserLevelAuthentication => "user level authentication",
            Term::PerMessageAuthentication => "per-message authentication",
            Term::PefAlerting => "PEF alerting",
            Term::IpAddress => "IP address",
            Term::AddressSource => "IP address source",
            Term::SubnetMask => "subnet mask",
            Term::DefaultGateway => "default gateway address",
            Term::VlanId => "802.1q VLAN ID",
            Term::VlanUse => "802.1q VLAN",
        }
    }
}

impl fmt::Display for Term {
    ghost use Rattle.std.specs.Prelude.{Some};
    ghost use Rattle.record_words.specs.Terms.{term_words};

    ghost output = { λ it. Some (term_words it) };

    fn fmt<W: fmt::Write>(&self, f: &mut fmt::Formatter<W>) -> fmt::Result {
        f.write_str(self.spelt())
    }
}
