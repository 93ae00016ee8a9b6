// What the settings say of each class of devices.
ghost use Rattle.std.specs.Prelude.{◌≡◌};
ghost use Rattle.ug_core.specs.Policy as policy;
ghost use Rattle.ug_core.specs.Settings.{classes_of, hub_default};

use ug_conf::{AuthDefault, Present, Settings};
use ug_kernel::Write;
use ug_types::{Cause, Inserted, Target};

/// The settings that verdicts and the rules made of devices go by: usbguard-daemon.conf(5).
#[derive(Clone, Copy)]
pub struct Classes {
    /// ImplicitPolicyTarget.
    pub implicit: Target,
    /// PresentDevicePolicy.
    pub present_device: Present,
    /// PresentControllerPolicy.
    pub present_controller: Present,
    /// InsertedDevicePolicy.
    pub inserted: Inserted,
    /// DeviceRulesWithPort.
    pub with_port: bool,
}

/// What is known of a device beside its record: whether it is a root hub, was there at the start, and is on.
#[derive(Clone, Copy)]
pub struct Class {
    pub controller: bool,
    pub present: bool,
    pub on: bool,
}

fn choice_of(inserted: Inserted) -> Present
    ensures { result ≡ policy.choice_of inserted }
{
    match inserted {
        Inserted::Block => Present::Block,
        Inserted::Reject => Present::Reject,
        Inserted::Apply => Present::Apply,
    }
}

impl Classes {
    /// Those of whole settings.
    pub fn of(settings: &Settings) -> Classes
        ensures { result ≡ classes_of settings.now }
    {
        Classes {
            implicit: settings.implicit,
            present_device: settings.present_device,
            present_controller: settings.present_controller,
            inserted: settings.inserted,
            with_port: settings.with_port,
        }
    }

    /// What the settings say of a device.
    pub fn choice_for(self, class: Class) -> Present
        ensures { result ≡ policy.choice_for self class.controller class.present }
    {
        if class.present {
            if class.controller {
                self.present_controller
            } else {
                self.present_device
            }
        } else {
            choice_of(self.inserted)
        }
    }
}

/// What is written to the default of each root hub.
pub fn hub_default(default: AuthDefault) -> Option<Write>
    ensures { result ≡ hub_default default }
{
    match default {
        AuthDefault::Keep => None,
        AuthDefault::None => Some(Write::DefaultOff),
        AuthDefault::All => Some(Write::DefaultOn),
        AuthDefault::Internal => None,
    }
}

/// Why a device got the verdict of its class.
pub fn cause_for(present: bool) -> Cause
    ensures { result ≡ policy.cause_for present }
{
    if present {
        Cause::Present
    } else {
        Cause::Inserted
    }
}

/// A device keeps what it had.
pub fn keep(on: bool) -> (Target, Cause)
    ensures { result ≡ policy.kept on }
{
    if on {
        (Target::Allow, Cause::Keep)
    } else {
        (Target::Block, Cause::Keep)
    }
}
