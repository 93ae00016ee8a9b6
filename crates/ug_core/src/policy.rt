// Verdicts by the rules and the daemon's settings.
ghost use Rattle.std.specs.Prelude.{◌≡◌, ◌<◌, ◌-◌, ◌^◌, true, All, Err, IfOk, Ok, OnOk, nat_lt};
ghost use Rattle.ug_policy.specs.Deciding.{find_decider};
ghost use Rattle.ug_rule.specs.Files.{file_read};
ghost use Rattle.ug_table.specs.Allowed.{allowed_records};
ghost use Rattle.ug_core.specs.Policy.{Judging, asks, by_class, context_at, judging_of, policy_answer, policy_later, rules_if, stream_if};
ghost use Rattle.ug_core.specs.Changes.{CanChange, ChangeReads, ChangeSaves, HasRoom, changed_by, is_saved, parameter_at, text_to_save, verdict_edit};
ghost use Rattle.ug_ruleset.specs.RuleEdits.{EditReads, if_room_for};
ghost use Rattle.ug_ruleset.specs.RuleFile.{FitsFile, IsSaveable, ReadsBack, permanent_rules, permanent_text};
ghost use Rattle.ug_policy.specs.Rules.{IsNumbered, rules_in};
ghost use Rattle.ug_ruleset.specs.RulePlaces.{if_removed, if_taken};
ghost use Rattle.ug_lines.specs.Splitting.{AreLines};
ghost use Rattle.ug_ruleset.specs.RuleRows.{rule_rows};

use crate::changes::Change;
use crate::classes::{Class, Classes, cause_for, keep};
use rand_core::Rng;
use std::alloc::Global;
use ug_cond::{Allowed, Context, Zone};
use ug_conf::Present;
use ug_policy::{Mark, RuleList};
use ug_print::{RulesTextFault, generated_rule};
use ug_ruleset::{Edit, KeptRules};
use ug_table::{Judge, Table};
use ug_types::{
    After, Cause, DeviceRecord, Judged, List, Moment, NoMemory, Parameter, ParameterName, Query,
    Refusal, Target, Text,
};

/// The settings for classes of devices, the rules in order, the local time zone, when devices are judged, and the generator of random words.
#[derive(Drop)]
pub struct Policy<Z: Zone, R: Rng> {
    classes: Classes,
    rules: KeptRules,
    zone: Z,
    ctx: Context,
    rng: R,
}

/// The settled devices of a table whose verdict is to allow them.
#[derive(Drop)]
struct AllowedIn<'a> {
    table: &'a Table,
}

impl<'a> Allowed for AllowedIn<'a> {
    ghost records = { λ a. allowed_records a.table.now.standings };

    fn any_allowed(&self, query: &Query) -> bool {
        self.table.any_allowed(query)
    }
}

/// The verdict on a device whose descriptors can be read.
fn judge<R: Rng>(
    classes: Classes,
    rules: &mut KeptRules,
    rng: &mut R,
    ctx: &Context,
    device: &DeviceRecord,
    class: Class,
    table: &Table,
) -> (Target, Cause)
    ensures answer { result
        ≡ by_class classes (find_decider device.now ctx.now (allowed_records table.now.standings)
        rules.old.entries (R.stream rng.old)) class.controller class.present class.on }
    ensures rules { rules.new.entries
        ≡ rules_if (asks classes class.controller class.present) rules.old.entries (find_decider
        device.now ctx.now (allowed_records table.now.standings) rules.old.entries
        (R.stream rng.old)) device.now ctx.now.moment }
    ensures next { rules.new.next ≡ rules.old.next }
    ensures words { R.stream rng.new
        ≡ stream_if (asks classes class.controller class.present) (R.stream rng.old) (find_decider
        device.now ctx.now (allowed_records table.now.standings) rules.old.entries
        (R.stream rng.old)) device.now }
{
    match classes.choice_for(class) {
        Present::Allow => (Target::Allow, cause_for(class.present)),
        Present::Block => (Target::Block, cause_for(class.present)),
        Present::Reject => (Target::Reject, cause_for(class.present)),
        Present::Keep => keep(class.on),
        Present::Apply => {
            let allowed = AllowedIn { table };
            rules.judge(device, ctx, &allowed, classes.implicit, rng)
        }
    }
}

impl<Z: Zone + Drop, R: Rng + Drop> Policy<Z, R> {
    /// Drops it, as `KeptRules::discard`.
    pub fn discard(self) {
        self.rules.discard();
    }
}

impl<Z: Zone, R: Rng> Policy<Z, R> {
    /// These settings and rules, with the clock of that zone and the words of that generator.
    pub fn new(classes: Classes, list: RuleList, zone: Z, rng: R) -> Policy<Z, R>
        requires readable { All ReadsBack (rules_in list.entries) }
        requires saves { IsSaveable list.entries }
        ensures { judging_of Z.clock R.stream result
            ≡ record {
              classes = classes;
              rules = list.entries;
              next = list.next;
              clock = Z.clock
                  zone;
              ctx = record { moment = record { 0 = 0 }; second = 0 };
              stream = R.stream
                  rng;
            } }
    {
        Policy {
            classes,
            rules: KeptRules::new(list),
            zone,
            ctx: Context {
                moment: Moment(0),
                second: 0,
            },
            rng,
        }
    }

    /// Whether an id is left for one rule more.
    pub fn has_id(&self) -> bool
        ensures { result ≡ nat_lt (judging_of Z.clock R.stream self.now).next (2 ^ 64 - 1) }
    {
        self.rules.next_id() < u64::MAX
    }

    /// The id that the next rule gets.
    pub fn next_id(&self) -> u64
        ensures { result ≡ (judging_of Z.clock R.stream self.now).next }
    {
        self.rules.next_id()
    }

    /// Why the rule of that id isn't removed.
    pub fn refuse_removal(&self, id: u64) -> Option<Refusal>
        ensures { result ≡ if_removed id (judging_of Z.clock R.stream self.now).rules }
    {
        self.rules.refuse_removal(id)
    }

    /// Why no rule with that mark is put behind that place.
    pub fn refuse_rule(&self, after: After, mark: Mark) -> Option<Refusal>
        ensures { result ≡ if_taken after mark (judging_of Z.clock R.stream self.now).rules }
    {
        self.rules.refuse_rule(after, mark)
    }

    /// Why there is no room for the edit.
    pub fn refuse_edit(&self, edit: &Edit) -> Option<Refusal>
        ensures { result ≡ if_room_for edit.now (judging_of Z.clock R.stream self.now).rules }
    {
        self.rules.refuse_edit(edit)
    }

    /// What gives the device that verdict for good: the first permanent rule that is made of it gets it, or else one is put behind the
    /// others, for which there may be no room.
    pub fn verdict_edit(
        &self,
        alloc: Global,
        device: &DeviceRecord,
        verdict: Target,
    ) -> Result<Edit, NoMemory>
        ensures edit { IfOk result
            (λ edit. edit
            ≡ verdict_edit device.now verdict (judging_of Z.clock R.stream self.now)) }
        ensures reads { IfOk result
            (λ edit. EditReads edit (judging_of Z.clock R.stream self.now).rules) }
    {
        let with_port = self.classes.with_port;
        let rule = generated_rule(alloc, device, verdict, with_port)?;
        match self.rules.made_rule(device, with_port) {
            Some(id) => Ok(Edit::Retarget { id, rule }),
            None => Ok(Edit::Insert {
                after: After::End,
                rule,
                mark: Mark::File,
            }),
        }
    }

    /// Makes room for the change. A refusal changes nothing.
    pub fn reserve_for(&mut self, change: &Change) -> Result<(), NoMemory>
        ensures same { judging_of Z.clock R.stream self.new ≡ judging_of Z.clock R.stream self.old }
        ensures ok { OnOk result (HasRoom change.now self.new.rules.spare) }
    {
        match change {
            Change::Rules(Edit::Insert { .. }) => self.rules.reserve(),
            _ => Ok(()),
        }
    }

    /// The text that is saved before the change is in force, if one is.
    pub fn text_after(&self, alloc: Global, change: &Change) -> Result<Option<Text>, RulesTextFault>
        requires can { CanChange change.now (judging_of Z.clock R.stream self.now).rules }
        requires reads { ChangeReads change.now (judging_of Z.clock R.stream self.now).rules }
        ensures text { IfOk result
            (λ text. text ≡ text_to_save change.now (judging_of Z.clock R.stream self.now)) }
        ensures saves { OnOk result
            (ChangeSaves change.now (judging_of Z.clock R.stream self.now)) }
        ensures too_long { result ≡ Err RulesTextFault.TooLong
            → (is_saved change.now (judging_of Z.clock R.stream self.now).rules ≡ true)
            × (FitsFile (changed_by change.now (judging_of Z.clock R.stream self.now)).rules → ⊥) }
    {
        match change {
            Change::Rules(edit) => self.rules.text_if_saved(alloc, edit),
            Change::Set(_) => Ok(None),
        }
    }

    /// Does the change, for which there is room.
    pub fn change(&mut self, change: Change)
        requires can { CanChange change (judging_of Z.clock R.stream self.old).rules }
        requires reads { ChangeReads change (judging_of Z.clock R.stream self.old).rules }
        requires room { HasRoom change self.old.rules.spare }
        requires saves { ChangeSaves change (judging_of Z.clock R.stream self.old) }
        requires id { (judging_of Z.clock R.stream self.old).next < 2 ^ 64 - 1 }
        ensures { judging_of Z.clock R.stream self.new
            ≡ changed_by change (judging_of Z.clock R.stream self.old) }
    {
        match change {
            Change::Rules(edit) => self.rules.edit(edit),
            Change::Set(parameter) => self.classes.set(parameter),
        }
    }

    /// The setting of that name.
    pub fn parameter(&self, name: ParameterName) -> Parameter
        ensures { result ≡ parameter_at name (judging_of Z.clock R.stream self.now).classes }
    {
        self.classes.parameter(name)
    }

    /// The text of a rule file with the permanent rules, which reads as them again.
    pub fn rules_text(&self, alloc: Global) -> Result<Text, NoMemory>
        ensures text { IfOk result
            (λ text. text ≡ permanent_text (judging_of Z.clock R.stream self.now).rules) }
        ensures reads { IfOk result
            (λ text. file_read text
            ≡ Ok (permanent_rules (judging_of Z.clock R.stream self.now).rules)) }
    {
        self.rules.text(alloc)
    }

    /// The permanent rules read again from the text that is saved of them, for which a rule file has room. The folder's stand before them, and no
    /// two rules have one id.
    pub fn stay_saveable(&self)
        ensures saves { IsSaveable (judging_of Z.clock R.stream self.now).rules }
        ensures numbered { IsNumbered (judging_of Z.clock R.stream self.now).rules
            (judging_of Z.clock R.stream self.now).next }
    {
        self.rules.stay_saveable();
    }

    /// The rows of a list of the rules.
    pub fn rule_rows(&self, alloc: Global) -> Result<List<Text>, NoMemory>
        ensures rows { IfOk result
            (λ rows. rows ≡ rule_rows (judging_of Z.clock R.stream self.now).rules) }
        ensures one_line { IfOk result (λ rows. AreLines rows) }
    {
        self.rules.rows(alloc)
    }

    /// The next verdicts are given at that moment.
    pub fn set_moment(&mut self, moment: Moment)
        ensures { judging_of Z.clock R.stream self.new
            ≡ record (judging_of Z.clock R.stream self.old)
            { ctx = context_at (judging_of Z.clock R.stream self.old).clock moment } }
    {
        self.ctx = Context {
            moment,
            second: self.zone.local_second(moment),
        };
    }
}

impl<Z: Zone, R: Rng> Judge for Policy<Z, R> {
    ghost Meaning = { Judging };

    ghost meaning = { judging_of Z.clock R.stream };

    ghost answer = { policy_answer };

    ghost later = { policy_later };

    fn verdict(
        &mut self,
        dev: &Judged,
        controller: bool,
        present: bool,
        on: bool,
        allowed: &Table,
    ) -> (Target, Cause) {
        match dev {
            Judged::Malformed { kind, place } => (
                Target::Block,
                Cause::Malformed {
                    kind: *kind,
                    place: *place,
                },
            ),
            Judged::Good(device) => {
                let class = Class {
                    controller,
                    present,
                    on,
                };
                judge(
                    self.classes,
                    &mut self.rules,
                    &mut self.rng,
                    &self.ctx,
                    device,
                    class,
                    allowed,
                )
            }
        }
    }

    fn asked(&self) -> Option<&Query> {
        self.rules.asked()
    }
}
