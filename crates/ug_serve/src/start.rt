// The daemon's start.
ghost use Rattle.std.specs.Prelude.{◌≡◌, ◌≤◌, ◌<◌, ◌^◌, ℕ, List, Ok, Err, IfOk, IfErr, length, map};
ghost use Rattle.rand_core.specs.Stream.{Stream};
ghost use Rattle.ug_types.specs.Ends.{Rose};
ghost use Rattle.ug_store.specs.Store.{seen_by};
ghost use Rattle.ug_audit.specs.Journal.{members};
ghost use Rattle.ug_audit.specs.Noting.{NotesStart};
ghost use Rattle.ug_audit.specs.declared.start_entry.StartEntry.{StartEntry};
ghost use Rattle.ug_core.specs.Event.{daemon_of};
ghost use Rattle.ug_core.specs.Starting.{AreAscending, Starts};
ghost use Rattle.ug_serve.specs.Access.{OpensTo};
ghost use Rattle.ug_serve.specs.Folders.{ReadsRules};
ghost use Rattle.ug_serve.specs.Opening.{IsAimed, Opens, ReadsSettings, StartsDaemon};
ghost use Rattle.ug_serve.specs.Opening.{outset_of, started, unused_entries, words_of_seed};
ghost use Rattle.ug_serve.specs.declared.not_started.NotStarted.TheVariants.{FilesFailed, DiskFailed};

use crate::access::{Access, read_access};
use crate::folder::read_folder;
use crate::not_started::NotStarted;
use crate::noting::note_unused;
use crate::settings::read_settings;
use rand_chacha::ChaCha20Rng;
use rand_core::SeedableRng;
use std::alloc::Global;
use ug_acl::Acl;
use ug_audit::{Auditor, Panel};
use ug_cond::Zone;
use ug_conf::{ConfFiles, FolderFile, Settings};
use ug_core::{Daemon, StartFault};
use ug_store::RuleDisk;
use ug_types::{List, NoMemory, Principal, Text};

/// A daemon that started, and those that it is open to.
#[derive(Drop)]
pub struct Started<Z: Zone> {
    pub daemon: Daemon<Z, ChaCha20Rng>,
    pub principals: List<Principal>,
}

/// The files' names.
fn names_of(alloc: Global, files: &[FolderFile]) -> Result<List<Text>, NoMemory>
    ensures { IfOk result (λ names. names ≡ map (λ file. file.name) files.now) }
{
    let mut names = List::new(alloc);
    for file in files {
        names.push(Text::of(alloc, file.name.bytes())?)?;
    }
    Ok(names)
}

/// Starts a daemon from the files of the folder of rules and the disk's rule file.
fn start_from<Z: Zone + Drop, D: RuleDisk>(
    alloc: Global,
    settings: Settings,
    acl: Acl,
    seed: [u8; 32],
    zone: Z,
    folder: List<FolderFile>,
    disk: &mut D,
) -> Result<Daemon<Z, ChaCha20Rng>, StartFault>
    requires { AreAscending folder }
    ensures starts { Starts D.keeps D.told D.faults
        (outset_of settings acl (Z.clock zone) (words_of_seed seed)) folder
        disk.old (seen_by (λ d. daemon_of d) result) disk.new }
{
    let rng = ChaCha20Rng::from_seed(seed);
    Daemon::start(alloc, settings, acl, rng, zone, 1, folder, disk)
}

/// The same, with the part that isn't taken where it is refused.
fn start_daemon<Z: Zone + Drop, D: RuleDisk>(
    alloc: Global,
    settings: Settings,
    access: Access,
    seed: [u8; 32],
    zone: Z,
    folder: List<FolderFile>,
    disk: &mut D,
) -> Result<Started<Z>, NotStarted>
    requires { AreAscending folder }
    ensures starts { StartsDaemon D.RuleDisk
        (outset_of settings access.acl (Z.clock zone) (words_of_seed seed)) folder
        disk.old (seen_by (λ s. daemon_of s.daemon) result) disk.new }
    ensures principals { IfOk result (λ s. s.principals ≡ access.principals) }
    ensures not_files { ¬ (result ≡ Err FilesFailed) }
    ensures cause { result ≡ Err DiskFailed → Rose (D.faults disk.old) (D.faults disk.new) }
{
    let names = match names_of(alloc, folder.as_slice()) {
        Ok(names) => names,
        Err(_) => return Err(NotStarted::Memory),
    };
    match start_from(alloc, settings, access.acl, seed, zone, folder, disk) {
        Ok(daemon) => Ok(Started {
            daemon,
            principals: access.principals,
        }),
        Err(fault) => Err(NotStarted::of_start(names.as_slice(), fault)),
    }
}

/// Reads who may do what and the folder of rules, and aims the disk at the rule file.
fn read_parts<F: ConfFiles, D: RuleDisk>(
    alloc: Global,
    settings: &Settings,
    disk: &mut D,
    files: &mut F,
) -> Result<(Access, List<FolderFile>), NotStarted>
    ensures reads { IfOk result (λ parts. (h : F)
        × OpensTo F.gives settings.now.users settings.now.access_folder files.old (Ok parts.0) h
        × ReadsRules F.gives settings.now.rule_folder h (Ok parts.1) files.new
        × IsAimed D.RuleDisk settings.now.rule_file disk.old disk.new) }
    ensures opens { IfErr result (λ cause. (path : List ℕ) → (clock : ℕ → ℕ) → (words : Stream)
        → (f : F) → ReadsSettings F.gives path f (Ok settings.now) files.old
        → Opens F.gives D.RuleDisk path clock words f disk.old
        (unused_entries settings.now.unused) (Err cause) files.new disk.new) }
    ensures few { IfOk result (λ parts. length parts.0.principals < 2 ^ 32) }
    ensures ascend { IfOk result (λ parts. AreAscending parts.1) }
    ensures counted { F.faults files.old ≤ F.faults files.new }
    ensures cause { result ≡ Err FilesFailed → Rose (F.faults files.old) (F.faults files.new) }
    ensures not_disk { ¬ (result ≡ Err DiskFailed) }
{
    let access = read_access(alloc, settings, files)?;
    let folder = read_folder(alloc, settings.rule_folder.bytes(), files)?;
    disk.aim(alloc, settings.rule_file.bytes())?;
    Ok((access, folder))
}

/// Reads the settings at that path, and starts a daemon from the folder of rules and the rule file that they name. The auditors note the
/// start's entries, but for that of a part that isn't taken.
pub fn start<Z: Zone + Drop, F: ConfFiles, D: RuleDisk>(
    alloc: Global,
    path: &[u8],
    seed: [u8; 32],
    zone: Z,
    disk: &mut D,
    files: &mut F,
    panel: &mut Panel,
) -> Result<Started<Z>, NotStarted>
    ensures few { IfOk result (λ s. length s.principals < 2 ^ 32) }
    ensures starts { (told : List StartEntry)
        × Opens F.gives D.RuleDisk path.now (Z.clock zone) (words_of_seed seed)
        files.old disk.old told (seen_by (λ s. started s.principals (daemon_of s.daemon)) result)
        files.new disk.new
        × NotesStart told (members (λ b. ⟦<dyn Auditor as Auditor>⟧ b.vtable) panel.old)
        (members (λ b. ⟦<dyn Auditor as Auditor>⟧ b.vtable) panel.new) }
    ensures files_cause { result ≡ Err FilesFailed
        → Rose (F.faults files.old) (F.faults files.new) }
    ensures disk_cause { result ≡ Err DiskFailed → Rose (D.faults disk.old) (D.faults disk.new) }
{
    let settings = read_settings(alloc, path, files)?;
    note_unused(panel, settings.unused.as_slice());
    let (access, folder) = read_parts(alloc, &settings, disk, files)?;
    start_daemon(alloc, settings, access, seed, zone, folder, disk)
}
