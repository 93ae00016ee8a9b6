// The daemons that a script starts.
ghost use Rattle.std.specs.Prelude.{◌≡◌, ◌+◌, ◌≤◌, length, pos, true, false, Err, Ok, IfOk, OnErr, OnOk};
ghost use Rattle.ug_command_io.specs.Fold.{BadLine, InputTooLong};
ghost use Rattle.ug_ruleset.specs.RuleFile.{CanSave, IsSaveable};
ghost use Rattle.ug_script.specs.RuleFiles.{HasFolder, IsStillOn};
ghost use Rattle.ug_core.specs.Event.{daemon_of};
ghost use Rattle.ug_core.specs.Settings.{classes_of, hub_default};
ghost use Rattle.ug_rule.specs.Files.{file_read};
ghost use Rattle.ug_store.specs.Scripted.{world_at_first};
ghost use Rattle.ug_print.specs.RuleTexts.{rules_text_of};
ghost use Rattle.ug_script.specs.Script.{IsStartedBy, fits_file, fits_folder, fits_rules, no_start_of};
ghost use Rattle.ug_script.specs.Setup.{StartsOn, after_reading, beside_of, given_or, no_seed, policy_of, rules_disk, rules_from, first_started};

use crate::access::access_of;
use crate::session::Session;
use crate::setup::Setup;
use rand_chacha::ChaCha20Rng;
use rand_core::{Rng, SeedableRng};
use std::alloc::Global;
use std::mem::replace;
use ug_cond::{FixedZone, Zone};
use ug_conf::{Settings, default_settings, discard_files};
use ug_core::{Daemon, StartFault};
use ug_policy::MAX_RULES;
use ug_print::RulesTextFault;
use ug_store::MemDisk;
use ug_types::{NoMemory, TEXT_LIMIT};

/// Why no daemon starts over a disk.
#[derive(Clone, Copy)]
pub enum NoStart {
    /// The rule file isn't in the grammar, or a file of the folder.
    BadRules,
    /// It has more than 67,108,864 bytes, or its rules have, or the folder's files; or there are more than 65,536 rules in all.
    TooLong,
    Memory,
}

impl From<NoMemory> for NoStart {
    ghost use Rattle.std.specs.Prelude.{◌≡◌};
    ghost use Rattle.ug_script.specs.declared.start.NoStart.TheVariants.{Memory};

    ghost from_gives = { λ _ fault. fault ≡ Memory };

    fn from(_fault: NoMemory) -> NoStart {
        NoStart::Memory
    }
}

/// The zone of the line, or UTC.
fn zone_of(zone: Option<i32>) -> FixedZone
    ensures { result.ahead ≡ given_or (pos 0) zone }
{
    match zone {
        Some(ahead) => FixedZone { ahead },
        None => FixedZone { ahead: 0 },
    }
}

fn seed_of(seed: Option<[u8; 32]>) -> [u8; 32]
    ensures { result ≡ given_or no_seed seed }
{
    match seed {
        Some(seed) => seed,
        None => [0; 32],
    }
}

fn zone_for(setup: &Setup) -> FixedZone
    ensures { ⟦<FixedZone as Zone>⟧.clock result ≡ (policy_of setup.now).clock }
{
    zone_of(setup.zone)
}

fn rng_for(setup: &Setup) -> ChaCha20Rng
    ensures { ⟦<ChaCha20Rng as Rng>⟧.stream result ≡ (policy_of setup.now).stream }
{
    ChaCha20Rng::from_seed(seed_of(setup.seed))
}

/// Settings that judge as the lines say. The others are those of `default_settings`: a script has no use for them.
fn settings_of(alloc: Global, setup: &Setup) -> Result<Settings, NoMemory>
    ensures classes { IfOk result (λ settings. classes_of settings
        ≡ classes_of setup.now.settings.draft.settings) }
    ensures hub { IfOk result (λ settings. hub_default settings.default
        ≡ (beside_of setup.now).hub) }
{
    let given = setup.settings.so_far();
    let mut settings = default_settings(alloc)?;
    settings.implicit = given.implicit;
    settings.present_device = given.present_device;
    settings.present_controller = given.present_controller;
    settings.inserted = given.inserted;
    settings.default = given.default;
    settings.with_port = given.with_port;
    Ok(settings)
}

/// The disk whose rule file holds the rules, where they aren't too long.
fn disk_of(alloc: Global, setup: &Setup) -> Result<MemDisk, RulesTextFault>
    ensures disk { IfOk result (λ disk. disk ≡ world_at_first (rules_text_of setup.now.rules)) }
    ensures reads { OnOk result (file_read (rules_text_of setup.now.rules) ≡ Ok setup.now.rules) }
    ensures fits { OnOk result (fits_rules setup.now ≡ true) }
    ensures too_long { result ≡ Err RulesTextFault.TooLong → fits_rules setup.now ≡ false }
{
    let text = setup.rules.text();
    if text.len() > TEXT_LIMIT {
        return Err(RulesTextFault::TooLong);
    }
    match MemDisk::with_text(alloc, text) {
        Ok(disk) => Ok(disk),
        Err(_) => Err(RulesTextFault::Memory),
    }
}

/// Why a start was refused. A disk in memory fails only where an entry of its calls finds no memory.
fn no_start(fault: StartFault) -> NoStart
    ensures { result ≡ no_start_of fault }
{
    match fault {
        StartFault::BadFolder { .. } | StartFault::BadRules(_) => NoStart::BadRules,
        StartFault::FolderTooLong | StartFault::TooLong | StartFault::TooMany => NoStart::TooLong,
        StartFault::Disk(_) | StartFault::Memory => NoStart::Memory,
    }
}

/// Whether the rules are no more than a daemon takes, as those of a setup are.
fn are_few(setup: &Setup) -> bool
    ensures few { setup.now.folder.count + length setup.now.rules ≤ 65536 }
    ensures is { result ≡ true }
{
    setup.folder.len() + setup.rules.len() <= MAX_RULES
}

/// A daemon that reads its rules from that disk, whose first event has that number.
fn start_on(
    alloc: Global,
    setup: &Setup,
    first: u64,
    disk: &mut MemDisk,
) -> Result<Daemon<FixedZone, ChaCha20Rng>, NoStart>
    ensures started { IfOk result (λ daemon. StartsOn setup.now first disk.old (daemon_of daemon)) }
    ensures fits { OnOk result (fits_folder setup.now ≡ true) }
    ensures folder { IfOk result (λ daemon. HasFolder setup.now.folder.count (daemon_of daemon)) }
    ensures saves { IfOk result (λ daemon. IsSaveable (daemon_of daemon).sweep.judge.rules) }
    ensures bad { result ≡ Err NoStart.BadRules
        → rules_from setup.now.folder.count disk.old.disk.text ≡ Err BadLine }
    ensures too_long { result ≡ Err NoStart.TooLong → fits_folder setup.now ≡ true
        → rules_from setup.now.folder.count disk.old.disk.text ≡ Err InputTooLong }
    ensures read { OnOk result (disk.new ≡ after_reading disk.old) }
    ensures still { disk.new.ran_out ≡ false → IsStillOn disk.old disk.new }
{
    let folder = setup.folder.files(alloc)?;
    let Ok(settings) = settings_of(alloc, setup) else {
        discard_files(folder);
        return Err(NoStart::Memory);
    };
    let Ok(access) = access_of(alloc, setup) else {
        discard_files(folder);
        settings.discard();
        return Err(NoStart::Memory);
    };
    let rng = rng_for(setup);
    let zone = zone_for(setup);
    match Daemon::start(alloc, settings, access, rng, zone, first, folder, disk) {
        Ok(daemon) => Ok(daemon),
        Err(fault) => Err(no_start(fault)),
    }
}

/// The daemon that judges by the setup lines, before its first event, which is number 1.
pub fn start_daemon(alloc: Global, setup: &Setup) -> Result<Session, RulesTextFault>
    ensures daemon { IfOk result (λ s. daemon_of s.daemon ≡ first_started setup.now) }
    ensures disk { IfOk result (λ s. s.disk ≡ rules_disk setup.now) }
    ensures session { IfOk result (λ s. IsStartedBy setup.now s) }
    ensures fits { OnOk result (fits_file setup.now ≡ true) }
    ensures saves { OnOk result (CanSave setup.now.rules) }
    ensures too_long { result ≡ Err RulesTextFault.TooLong → fits_file setup.now ≡ false }
{
    let few = are_few(setup);
    prove!(few);
    let mut disk = disk_of(alloc, setup)?;
    match start_on(alloc, setup, 1, &mut disk) {
        Ok(daemon) => Ok(Session {
            daemon,
            before: setup.folder.len(),
            disk,
        }),
        Err(NoStart::TooLong) => {
            disk.discard();
            Err(RulesTextFault::TooLong)
        }
        Err(NoStart::Memory) => {
            disk.discard();
            Err(RulesTextFault::Memory)
        }
        Err(NoStart::BadRules) => unreachable!(),
    }
}

/// A new daemon over the same disk, whose first event has the number that the daemon before would have given it. The rule file gives one, so
/// that only want of memory refuses it. Then the one before stays.
pub fn restart_daemon(alloc: Global, setup: &Setup, session: &mut Session) -> Result<(), NoMemory>
    requires session { IsStartedBy setup.now session.old }
    ensures started { OnOk result (StartsOn setup.now (daemon_of session.old.daemon).event
        session.old.disk (daemon_of session.new.daemon)) }
    ensures kept { OnErr result (session.new.daemon ≡ session.old.daemon) }
    ensures read { OnOk result (session.new.disk ≡ after_reading session.old.disk) }
    ensures before { session.new.before ≡ session.old.before }
{
    if session.disk.ran_out() {
        return Err(NoMemory);
    }
    let first = session.daemon.next_event();
    match start_on(alloc, setup, first, &mut session.disk) {
        Ok(daemon) => {
            replace(&mut session.daemon, daemon).discard();
            Ok(())
        }
        Err(NoStart::Memory) => Err(NoMemory),
        Err(NoStart::BadRules | NoStart::TooLong) => unreachable!(),
    }
}
