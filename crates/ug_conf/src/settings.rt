// What the daemon's settings are: usbguard-daemon.conf(5).
use ug_types::{Inserted, List, Principal, Target, Text};

/// PresentDevicePolicy and PresentControllerPolicy: what is done with a device that was there at the start.
#[derive(Clone, Copy)]
pub enum Present {
    Allow,
    Block,
    Reject,
    /// The device keeps its state.
    Keep,
    /// The rules decide.
    Apply,
}

/// AuthorizedDefault: what a controller does with a new device by itself.
#[derive(Clone, Copy)]
pub enum AuthDefault {
    /// As the controller has it.
    Keep,
    /// No device is authorized.
    None,
    /// Each is.
    All,
    /// Devices that are built in are.
    Internal,
}

/// The settings of usbguard-daemon.conf(5).
#[derive(Drop)]
pub struct Settings {
    /// RuleFile.
    pub rule_file: Text,
    /// RuleFolder. There is none where it is empty.
    pub rule_folder: Text,
    /// IPCAccessControlFiles.
    pub access_folder: Text,
    /// ImplicitPolicyTarget.
    pub implicit: Target,
    /// PresentDevicePolicy.
    pub present_device: Present,
    /// PresentControllerPolicy.
    pub present_controller: Present,
    /// InsertedDevicePolicy.
    pub inserted: Inserted,
    /// AuthorizedDefault.
    pub default: AuthDefault,
    /// The users of IPCAllowedUsers, and behind them the groups of IPCAllowedGroups.
    pub users: List<Principal>,
    /// DeviceRulesWithPort.
    pub with_port: bool,
    /// The numbers of the lines whose keys set nothing yet, in the lines' order.
    pub unused: List<u64>,
}

impl Settings {
    /// Drops them. A crate that calls this need not prove how their parts are dropped.
    pub fn discard(self) {}
}
