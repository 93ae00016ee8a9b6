// What the lines give that stand before all others.
ghost use Rattle.std.specs.Prelude.{◌≡◌, ◌++◌, ◌∷◌, [], Some, IfErr, IfOk, OnOk};
ghost use Rattle.ug_steps.specs.Grammar.{AsksForRule, HoldsRule};
ghost use Rattle.ug_steps.specs.declared.step.SetupLine.TheVariants.{Seed, Zone};
ghost use Rattle.ug_script.specs.Setup as lines;
ghost use Rattle.ug_script.specs.Setup.{Adds, no_setup, one_line_more};
ghost use Rattle.ug_rule.specs.Grammar.{WellFormed};

use crate::folder_lines::FolderLines;
use crate::rule_lines::RuleLines;
use std::alloc::Global;
use std::marker::Model;
use ug_conf::{LineFault, SettingsReader};
use ug_iface::{IfaceRule, discard_iface_rules, push_iface_rule};
use ug_policy::MAX_RULES;
use ug_steps::{AccessLine, FolderLine, SetupLine, StepFault, is_entry};
use ug_types::{NoMemory, Rule};

/// The rules in order, of which the text is kept, the files of the folder before them, the settings so far, what was granted in
/// order, the seed and the zone, where they were given, and the rules of interfaces in order.
#[derive(Drop)]
pub struct Setup {
    pub folder: FolderLines,
    pub rules: RuleLines,
    pub settings: SettingsReader,
    pub access: Vec<AccessLine>,
    pub seed: Option<[u8; 32]>,
    pub zone: Option<i32>,
    pub ifaces: Vec<IfaceRule>,
}

impl Setup {
    /// Drops it. A crate that calls this need not prove how its parts are dropped.
    pub fn discard(self) {
        self.settings.discard();
        discard_iface_rules(self.ifaces);
    }
}

impl Model for Setup {
    ghost use Rattle.std.specs.Prelude.{◌+◌, ◌≤◌, length};
    ghost use Rattle.ug_script.specs.Setup.{SetupState};

    ghost Value = { SetupState };

    ghost view = { λ s. record {
      folder = s.folder;
      rules = s.rules;
      settings = s.settings;
      access = s.access.items;
      seed = s.seed;
      zone = s.zone;
      ifaces = s.ifaces.items;
    } };

    ghost invariant = { λ s. record { few : s.folder.count + length s.rules ≤ 65536 } };
}

fn is_offset(seconds: i32) -> bool
    ensures { result ≡ lines.is_offset seconds }
{
    -86399 <= seconds && seconds <= 86399
}

fn add_access_line(line: AccessLine, lines: &mut Vec<AccessLine>) -> Result<(), StepFault>
    ensures memory { IfErr result (λ fault. fault ≡ StepFault.Memory) }
    ensures added { OnOk result (lines.new.items ≡ lines.old.items ++ line ∷ []) }
{
    match lines.push(line) {
        Ok(()) => Ok(()),
        Err(_) => Err(StepFault::Memory),
    }
}

fn add_iface_rule(rule: IfaceRule, rules: &mut Vec<IfaceRule>) -> Result<(), StepFault>
    ensures memory { IfErr result (λ fault. fault ≡ StepFault.Memory) }
    ensures added { OnOk result (rules.new.items ≡ rules.old.items ++ rule ∷ []) }
{
    match push_iface_rule(rules, rule) {
        Ok(()) => Ok(()),
        Err(_) => Err(StepFault::Memory),
    }
}

impl Setup {
    /// No line was taken.
    pub fn new(alloc: Global) -> Result<Setup, NoMemory>
        ensures { IfOk result (λ setup. setup ≡ no_setup) }
    {
        let settings = SettingsReader::new(alloc)?;
        Ok(Setup {
            folder: FolderLines::new(alloc),
            rules: RuleLines::new(alloc),
            settings,
            access: Vec::new(alloc),
            seed: None,
            zone: None,
            ifaces: Vec::new(alloc),
        })
    }

    /// Takes a line, unless it may not stand there.
    pub fn add(&mut self, line: SetupLine) -> Result<(), StepFault>
        requires { AsksForRule line }
        ensures { Adds (one_line_more line self.old) result self.old self.new }
    {
        match line {
            SetupLine::Rule(rule) => {
                let added = self.add_rule(&rule);
                rule.discard();
                added
            }
            SetupLine::Folder(line) => self.add_folder_line(&line),
            SetupLine::Conf(text) => self.add_setting(text.bytes()),
            SetupLine::Access(line) => add_access_line(line, &mut self.access),
            SetupLine::Seed(seed) => self.add_seed(seed),
            SetupLine::Zone(offset) => self.add_zone(offset),
            SetupLine::IfaceRule(rule) => add_iface_rule(rule, &mut self.ifaces),
        }
    }

    /// Whether one more rule may stand there.
    fn has_room(&self) -> bool
        ensures { result ≡ lines.has_rule_room self.now }
    {
        self.folder.len() + self.rules.len() < MAX_RULES
    }

    fn add_folder_line(&mut self, line: &FolderLine) -> Result<(), StepFault>
        requires { HoldsRule line.now.text }
        ensures { Adds (lines.one_folder_line_more line.now self.old) result self.old self.new }
    {
        if !self.has_room() {
            return Err(StepFault::Bad);
        }
        match self.folder.push(line) {
            Ok(()) => Ok(()),
            Err(_) => Err(StepFault::Memory),
        }
    }

    fn add_rule(&mut self, rule: &Rule) -> Result<(), StepFault>
        requires { WellFormed rule.now }
        ensures { Adds (lines.one_rule_more rule.now self.old) result self.old self.new }
    {
        if !self.has_room() {
            return Err(StepFault::Bad);
        }
        match self.rules.push(rule) {
            Ok(()) => Ok(()),
            Err(_) => Err(StepFault::Memory),
        }
    }

    fn add_setting(&mut self, text: &[u8]) -> Result<(), StepFault>
        ensures { Adds (lines.one_setting_more text.now self.old) result self.old self.new }
    {
        if !is_entry(text) {
            return Err(StepFault::Bad);
        }
        match self.settings.line(text) {
            Ok(()) => Ok(()),
            Err(LineFault::Bad(_)) => Err(StepFault::Bad),
            Err(LineFault::Memory) => Err(StepFault::Memory),
        }
    }

    fn add_seed(&mut self, seed: [u8; 32]) -> Result<(), StepFault>
        ensures { Adds (one_line_more (Seed seed) self.old) result self.old self.new }
    {
        if self.seed.is_some() {
            return Err(StepFault::Bad);
        }
        self.seed = Some(seed);
        Ok(())
    }

    fn add_zone(&mut self, offset: i32) -> Result<(), StepFault>
        ensures { Adds (one_line_more (Zone offset) self.old) result self.old self.new }
    {
        if self.zone.is_some() || !is_offset(offset) {
            return Err(StepFault::Bad);
        }
        self.zone = Some(offset);
        Ok(())
    }
}
