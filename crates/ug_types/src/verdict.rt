// Verdicts and their causes.
use crate::principal::Principal;

/// Seconds since 1970, from 0 to 250,000,000,000.
#[derive(Clone, Copy)]
pub struct Moment(pub u64);

/// What is done with a device: usbguard-rules.conf(5), target.
#[derive(Clone, Copy)]
pub enum Target {
    Allow,
    Block,
    Reject,
}

/// Why a verdict was given.
#[derive(Clone, Copy)]
pub enum Cause {
    /// The rule with that id was the first that matched.
    Rule(u64),
    /// No rule matched: ImplicitPolicyTarget of usbguard-daemon.conf(5).
    Implicit,
    /// PresentControllerPolicy or PresentDevicePolicy of usbguard-daemon.conf(5).
    Present,
    /// The device was present at the start and keeps what it had.
    Keep,
    /// InsertedDevicePolicy of usbguard-daemon.conf(5).
    Inserted,
    /// Its descriptors could not be read as USB 2.0, chapter 9, says.
    Malformed { kind: u8, place: u64 },
    /// An order of that user or group.
    Order(Principal),
}
