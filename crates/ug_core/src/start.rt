// The daemon's start.
ghost use Rattle.std.specs.Prelude.{◌≡◌, [], false, All, IfErr, IfOk};
ghost use Rattle.ug_store.specs.Store.{seen_by};
ghost use Rattle.ug_core.specs.Event.{daemon_of};
ghost use Rattle.ug_ruleset.specs.RuleFile.{IsSaveable, ReadsBack};
ghost use Rattle.ug_policy.specs.Rules.{rules_in};
ghost use Rattle.ug_core.specs.Settings.{classes_of, hub_default};
ghost use Rattle.ug_core.specs.Starting.{AreAscending, Starts, StartsWithRules};
ghost use Rattle.ug_core.specs.Verdicts.{IsLater};

use crate::classes::{Classes, hub_default};
use crate::daemon::Daemon;
use crate::folder::list_folder;
use crate::load::load_rules;
use crate::policy::Policy;
use crate::report::Report;
use crate::start_fault::StartFault;
use rand_core::Rng;
use std::alloc::Global;
use ug_acl::Acl;
use ug_audit::Entries;
use ug_cond::Zone;
use ug_conf::{FolderFile, Settings, discard_files};
use ug_kernel::Write;
use ug_policy::RuleList;
use ug_store::{RuleDisk, Store};
use ug_table::Table;
use ug_types::List;
use ug_uevent::Hints;

/// The room of the entries that belong to no standing, and a place for each member of a panel.
const ROOM: usize = 128;

// What a daemon is started with, beside its rules.
#[derive(Drop)]
struct Beside<Z, R> {
    classes: Classes,
    hub_default: Option<Write>,
    acl: Acl,
    rng: R,
    zone: Z,
    first: u64,
}

impl<Z: Zone + Drop, R: Rng + Drop> Beside<Z, R> {
    fn start(self, alloc: Global, loaded: (Store, RuleList)) -> Result<Daemon<Z, R>, StartFault>
        requires readable { All ReadsBack (rules_in loaded.1.entries) }
        requires saves { IsSaveable loaded.1.entries }
        requires unsaved { loaded.0 ≡ false }
        ensures ok { IfOk result (λ d. StartsWithRules (record {
          classes = self.classes;
          hub = self.hub_default;
          access = self.acl;
          clock = Z.clock self.zone;
          words = R.stream self.rng;
          first = self.first;
        }) loaded (daemon_of d)) }
        ensures err { IfErr result (λ e. e ≡ StartFault.Memory) }
        ensures saveable { IfOk result (λ d. IsSaveable (daemon_of d).sweep.judge.rules) }
        ensures number { IfOk result (λ d. d.report.event ≡ 0) }
    {
        let mut entries = Entries::new(alloc);
        if entries.reserve(ROOM).is_err() {
            drop(entries);
            loaded.1.discard();
            drop(self);
            return Err(StartFault::Memory);
        }
        Ok(Daemon {
            policy: Policy::new(self.classes, loaded.1, self.zone, self.rng),
            table: Table::new(alloc),
            hub_default: self.hub_default,
            store: loaded.0,
            acl: self.acl,
            hints: Hints::new(alloc),
            due: None,
            next_event: self.first,
            report: Report {
                event: 0,
                entries,
                reply: None,
                watch: false,
            },
        })
    }
}

impl<Z: Zone + Drop, R: Rng + Drop> Daemon<Z, R> {
    /// A daemon with the rules of the folder's files, in byte order of their names, and then those of the disk's rule file; its first event has
    /// that number. The folder is tried before anything is asked of the disk. It makes the room of an event's entries.
    pub fn start<D: RuleDisk>(
        alloc: Global,
        settings: Settings,
        acl: Acl,
        rng: R,
        zone: Z,
        first: u64,
        folder: List<FolderFile>,
        disk: &mut D,
    ) -> Result<Daemon<Z, R>, StartFault>
        requires { AreAscending folder }
        ensures starts { Starts D.keeps D.told D.faults (record {
          classes = classes_of settings;
          hub = hub_default settings.default;
          access = acl;
          clock = Z.clock zone;
          words = R.stream rng;
          first = first;
        }) folder disk.old (seen_by (λ d. daemon_of d) result) disk.new }
        ensures new { IfOk result
            (λ d. IsLater (daemon_of d).sweep.judge 0 [] (daemon_of d).sweep.judge) }
        ensures saveable { IfOk result (λ d. IsSaveable (daemon_of d).sweep.judge.rules) }
        ensures number { IfOk result (λ d. d.report.event ≡ 0) }
    {
        let beside = Beside {
            classes: Classes::of(&settings),
            hub_default: hub_default(settings.default),
            acl,
            rng,
            zone,
            first,
        };
        settings.discard();
        match list_folder(alloc, folder.as_slice()) {
            Ok(listed) => {
                discard_files(folder);
                match load_rules(alloc, listed, disk) {
                    Ok(loaded) => beside.start(alloc, loaded),
                    Err(fault) => {
                        drop(beside);
                        Err(fault)
                    }
                }
            }
            Err(fault) => {
                discard_files(folder);
                drop(beside);
                Err(fault)
            }
        }
    }
}
