// What an order comes to, before anything is changed: usbguard(1).
ghost use Rattle.std.specs.Prelude.{◌≡◌, ◌⊎◌, ◌∷◌, [], ℕ, false, List, IfErr, IfOk, IsSome, IsSomeAnd, None, Ok, OnErr, OnOk, Some, decimal};
ghost use Rattle.ug_kernel.specs.Tree.{Room, Runs};
ghost use Rattle.ug_lines.specs.Splitting.{AreLines, IsLine};
ghost use Rattle.ug_rule.specs.Rules.{rule_read};
ghost use Rattle.ug_types.specs.Parameters.{parameter_of};
ghost use Rattle.ug_core.specs.Answering.{asking, asking_of, by_edit, by_id, by_name, by_request, by_rule, by_setting, by_standing, by_value, if_rule_read, CanDo, CanMake, HasReplyLines, IsChosenForGood, changing, only, refusing, telling};
ghost use Rattle.ug_core.specs.Changes.{change_lines, ordered_mark, verdict_edit};
ghost use Rattle.ug_core.specs.DeviceRows.{device_rows};
ghost use Rattle.ug_core.specs.Event.{daemon_of};
ghost use Rattle.ug_ruleset.specs.RuleEdits.{if_room_for};
ghost use Rattle.ug_ruleset.specs.RulePlaces.{if_taken};
ghost use Rattle.ug_ruleset.specs.RuleRows.{rule_rows};
ghost use Rattle.ug_table.specs.Standings.{numbered};

use crate::changes::Change;
use crate::daemon::Daemon;
use crate::device_list::list_devices;
use crate::privileges::denied;
use itoa::Buffer;
use rand_core::Rng;
use std::alloc::Global;
use ug_cond::Zone;
use ug_kernel::{Probe, Sysfs};
use ug_policy::Mark;
use ug_proto::{Request, RequestFault, parse_request};
use ug_rule::{RuleFault, parse_rule};
use ug_ruleset::{Edit, stay_readable};
use ug_types::{
    After, DeviceRecord, Judged, List, NoMemory, Parameter, ParameterName, Principal, Refusal,
    Rule, Target, Text,
};

/// What is done of an order once its change is in force.
#[derive(Drop)]
pub enum Deed {
    Refuse(Refusal),
    /// The lines of its reply.
    Tell(List<Text>),
    /// The device of that number is there, with that value of `authorized`, and gets that verdict. The lines are those of the reply.
    SetVerdict {
        number: u64,
        verdict: Target,
        on: bool,
        lines: List<Text>,
    },
    /// Notices are asked for.
    Watch,
}

/// What an order comes to before anything is changed: the change of rules or settings that it asks for, and what is then done.
#[derive(Drop)]
pub struct Choice {
    pub change: Option<Change>,
    pub deed: Deed,
}

fn only(deed: Deed) -> Choice
    ensures { result ≡ only deed }
{
    Choice { change: None, deed }
}

fn refuse(refusal: Refusal) -> Choice
    ensures { result ≡ refusing refusal }
{
    only(Deed::Refuse(refusal))
}

fn change(change: Change, deed: Deed) -> Choice
    ensures { result ≡ changing change deed }
{
    Choice {
        change: Some(change),
        deed,
    }
}

fn tell(rows: Result<List<Text>, NoMemory>) -> Choice
    ensures ok { (lines : List (List ℕ)) → rows ≡ Ok lines → result ≡ only (Deed.Tell lines) }
    ensures err { OnErr rows (result ≡ refusing (Refusal.Memory false)) }
    ensures lines { IfOk rows (λ lines. AreLines lines) → HasReplyLines result.deed }
{
    match rows {
        Ok(rows) => only(Deed::Tell(rows)),
        Err(_) => refuse(Refusal::Memory { stands: false }),
    }
}

fn choose_value(alloc: Global, set: Option<Parameter>) -> Choice
    ensures chosen { result ≡ by_value set }
    ensures lines { HasReplyLines result.deed }
{
    match set {
        Some(set) => change(Change::Set(set), Deed::Tell(List::new(alloc))),
        None => refuse(Refusal::BadValue),
    }
}

// A setting is given a value.
fn choose_setting(alloc: Global, name: &[u8], value: &[u8]) -> Choice
    ensures chosen { result ≡ by_setting (parameter_of name.now) value.now }
    ensures lines { HasReplyLines result.deed }
{
    match ParameterName::named(name) {
        Some(set) => choose_value(alloc, set.with_value(value)),
        None => refuse(Refusal::BadParameter),
    }
}

fn one_line(alloc: Global, line: &[u8]) -> Result<List<Text>, NoMemory>
    ensures lines { IfOk result (λ lines. lines ≡ line.now ∷ []) }
    ensures whole { IsLine line.now → IfOk result (λ lines. AreLines lines) }
{
    let text = Text::of(alloc, line)?;
    let mut lines = List::new(alloc);
    lines.push(text)?;
    Ok(lines)
}

// The id of a rule as the line of a reply.
fn id_line(alloc: Global, id: u64) -> Result<List<Text>, NoMemory>
    ensures lines { IfOk result (λ lines. lines ≡ decimal id ∷ []) }
    ensures whole { IfOk result (λ lines. AreLines lines) }
{
    let mut digits = Buffer::new();
    one_line(alloc, digits.format(id).as_bytes())
}

// A rule is ordered to be permanent or temporary.
fn ordered_mark(permanent: bool) -> Mark
    ensures { result ≡ ordered_mark permanent }
{
    if permanent {
        Mark::File
    } else {
        Mark::Temporary
    }
}

// The lines of the reply to an edit that concerns one device, where that is the next rule's id.
fn edit_lines(alloc: Global, edit: &Edit, next: u64) -> Result<List<Text>, NoMemory>
    ensures lines { IfOk result (λ lines. lines ≡ change_lines (Change.Rules edit.now) next) }
    ensures whole { IfOk result (λ lines. AreLines lines) }
{
    match edit {
        Edit::Insert { .. } => id_line(alloc, next),
        Edit::Retarget { id, .. } => id_line(alloc, *id),
        Edit::Remove { .. } => Ok(List::new(alloc)),
    }
}

impl<Z: Zone, R: Rng> Daemon<Z, R> {
    // What the order comes to. Its device, if it has one, is probed, and nothing is written or noted.
    #[tactic(auto, unfolding(crate::specs::Answering::asking))]
    pub(crate) fn choose<Y: Sysfs>(
        &self,
        alloc: Global,
        sysfs: &mut Y,
        who: &Principal,
        line: &[u8],
    ) -> Choice
        ensures runs { Runs Y.gives sysfs.old (asking (daemon_of self.now) who.now line.now)
            result sysfs.new }
        ensures can_do { CanDo (daemon_of self.now) result.deed }
        ensures lines { HasReplyLines result.deed }
        ensures can_make { CanMake (daemon_of self.now).sweep.judge.rules result.change }
    {
        match parse_request(alloc, line) {
            Ok(request) => self.choose_for(alloc, sysfs, who, &request),
            Err(RequestFault::Bad(place)) => refuse(Refusal::BadRequest { place }),
            Err(RequestFault::Memory) => refuse(Refusal::Memory { stands: false }),
        }
    }

    // A request that may be denied.
    fn choose_for<Y: Sysfs>(
        &self,
        alloc: Global,
        sysfs: &mut Y,
        who: &Principal,
        request: &Request,
    ) -> Choice
        ensures runs { Runs Y.gives sysfs.old
            (by_request (daemon_of self.now) who.now (Ok request.now))
            result sysfs.new }
        ensures can_do { CanDo (daemon_of self.now) result.deed }
        ensures lines { HasReplyLines result.deed }
        ensures can_make { CanMake (daemon_of self.now).sweep.judge.rules result.change }
    {
        match denied(&self.acl, who, request) {
            Some(refusal) => refuse(refusal),
            None => self.choose_granted(alloc, sysfs, request),
        }
    }

    // A request of one who may make it.
    fn choose_granted<Y: Sysfs>(&self, alloc: Global, sysfs: &mut Y, request: &Request) -> Choice
        ensures runs { Runs Y.gives sysfs.old (asking_of (daemon_of self.now) request.now)
            result sysfs.new }
        ensures can_do { CanDo (daemon_of self.now) result.deed }
        ensures lines { HasReplyLines result.deed }
        ensures can_make { CanMake (daemon_of self.now).sweep.judge.rules result.change }
    {
        match request {
            Request::GetParameter { name } => self.choose_parameter(alloc, sysfs, name.bytes()),
            Request::SetParameter { name, value } => {
                choose_setting(alloc, name.bytes(), value.bytes())
            }
            Request::ListDevices => self.choose_devices(alloc, sysfs),
            Request::ListRules => self.choose_rules(alloc, sysfs),
            Request::Device {
                number,
                target,
                permanent,
            } => self.choose_verdict(alloc, sysfs, *number, *target, *permanent),
            Request::AppendRule {
                after,
                permanent,
                rule,
            } => self.choose_rule(alloc, sysfs, *after, *permanent, rule.bytes()),
            Request::RemoveRule { id } => self.choose_removal(alloc, *id),
            Request::Watch => only(Deed::Watch),
        }
    }

    // The value of a setting.
    fn choose_parameter<Y: Sysfs>(&self, alloc: Global, sysfs: &Y, name: &[u8]) -> Choice
        ensures runs { Runs Y.gives sysfs.now
            (by_name (daemon_of self.now).sweep.judge.classes (parameter_of name.now)) result
            sysfs.now }
        ensures can_do { CanDo (daemon_of self.now) result.deed }
        ensures lines { HasReplyLines result.deed }
        ensures can_make { CanMake (daemon_of self.now).sweep.judge.rules result.change }
    {
        match ParameterName::named(name) {
            Some(set) => tell(one_line(alloc, self.policy.parameter(set).value())),
            None => refuse(Refusal::BadParameter),
        }
    }

    fn choose_devices<Y: Sysfs>(&self, alloc: Global, sysfs: &Y) -> Choice
        ensures runs { Runs Y.gives sysfs.now
            (telling (device_rows (daemon_of self.now).sweep.standings)) result sysfs.now }
        ensures can_do { CanDo (daemon_of self.now) result.deed }
        ensures lines { HasReplyLines result.deed }
        ensures can_make { CanMake (daemon_of self.now).sweep.judge.rules result.change }
    {
        tell(list_devices(alloc, &self.table))
    }

    fn choose_rules<Y: Sysfs>(&self, alloc: Global, sysfs: &Y) -> Choice
        ensures runs { Runs Y.gives sysfs.now
            (telling (rule_rows (daemon_of self.now).sweep.judge.rules)) result sysfs.now }
        ensures can_do { CanDo (daemon_of self.now) result.deed }
        ensures lines { HasReplyLines result.deed }
        ensures can_make { CanMake (daemon_of self.now).sweep.judge.rules result.change }
    {
        tell(self.policy.rule_rows(alloc))
    }

    // A rule is read, and put behind that place.
    fn choose_rule<Y: Sysfs>(
        &self,
        alloc: Global,
        sysfs: &Y,
        after: After,
        permanent: bool,
        text: &[u8],
    ) -> Choice
        ensures runs { Runs Y.gives sysfs.now (Room
            (if_rule_read
            (daemon_of self.now).sweep.judge after permanent text.now)) result sysfs.now }
        ensures can_do { CanDo (daemon_of self.now) result.deed }
        ensures lines { HasReplyLines result.deed }
        ensures can_make { CanMake (daemon_of self.now).sweep.judge.rules result.change }
    {
        match parse_rule(alloc, text) {
            Ok(rule) => self.choose_place(alloc, after, permanent, text, rule),
            Err(RuleFault::Bad { kind, place }) => refuse(Refusal::BadRule { kind, place }),
            Err(RuleFault::Memory) => refuse(Refusal::Memory { stands: false }),
        }
    }

    // A rule that was read.
    fn choose_place(
        &self,
        alloc: Global,
        after: After,
        permanent: bool,
        text: &[u8],
        rule: Rule,
    ) -> Choice
        requires { rule_read text.now ≡ Ok rule }
        ensures chosen { (result
            ≡ by_rule (daemon_of self.now).sweep.judge after permanent (rule_read text.now))
            ⊎ (result ≡ refusing (Refusal.Memory false)) }
        ensures can_do { CanDo (daemon_of self.now) result.deed }
        ensures lines { HasReplyLines result.deed }
        ensures can_make { CanMake (daemon_of self.now).sweep.judge.rules result.change }
    {
        // A rule that is kept reads again from its canonical text.
        stay_readable(&rule);
        let mark = ordered_mark(permanent);
        match self.answer_place(alloc, after, mark) {
            Ok(lines) => {
                let edit = Edit::Insert { after, rule, mark };
                change(Change::Rules(edit), Deed::Tell(lines))
            }
            Err(refusal) => {
                rule.discard();
                refuse(refusal)
            }
        }
    }

    // The lines of the reply to one rule more with that mark behind that place, or why none is put
    // there.
    fn answer_place(&self, alloc: Global, after: After, mark: Mark) -> Result<List<Text>, Refusal>
        ensures free { OnOk result
            (if_taken after mark (daemon_of self.now).sweep.judge.rules ≡ None) }
        ensures lines { IfOk result
            (λ lines. lines ≡ decimal (daemon_of self.now).sweep.judge.next ∷ []) }
        ensures whole { IfOk result (λ lines. AreLines lines) }
        ensures refused { IfErr result (λ refused.
            (if_taken after mark (daemon_of self.now).sweep.judge.rules ≡ Some refused)
            ⊎ (refused ≡ Refusal.Memory false)) }
    {
        if let Some(refusal) = self.policy.refuse_rule(after, mark) {
            return Err(refusal);
        }
        match id_line(alloc, self.policy.next_id()) {
            Ok(lines) => Ok(lines),
            Err(_) => Err(Refusal::Memory { stands: false }),
        }
    }

    // A rule is removed.
    fn choose_removal(&self, alloc: Global, id: u64) -> Choice
        ensures chosen { result ≡ by_id (daemon_of self.now).sweep.judge.rules id }
        ensures can_do { CanDo (daemon_of self.now) result.deed }
        ensures lines { HasReplyLines result.deed }
        ensures can_make { CanMake (daemon_of self.now).sweep.judge.rules result.change }
    {
        if let Some(refusal) = self.policy.refuse_removal(id) {
            return refuse(refusal);
        }
        change(
            Change::Rules(Edit::Remove { id }),
            Deed::Tell(List::new(alloc)),
        )
    }

    // The device of that number is probed.
    fn choose_verdict<Y: Sysfs>(
        &self,
        alloc: Global,
        sysfs: &mut Y,
        number: u64,
        verdict: Target,
        permanent: bool,
    ) -> Choice
        ensures runs { Runs Y.gives sysfs.old
            (by_standing (daemon_of self.now).sweep.judge number verdict permanent
            (numbered number (daemon_of self.now).sweep.standings)) result sysfs.new }
        ensures can_do { CanDo (daemon_of self.now) result.deed }
        ensures lines { HasReplyLines result.deed }
        ensures can_make { CanMake (daemon_of self.now).sweep.judge.rules result.change }
    {
        match self.table.standing(number) {
            None => refuse(Refusal::NoDevice { number }),
            Some(standing) => {
                self.probe_for(alloc, sysfs, number, verdict, permanent, &standing.judged)
            }
        }
    }

    fn probe_for<Y: Sysfs>(
        &self,
        alloc: Global,
        sysfs: &mut Y,
        number: u64,
        verdict: Target,
        permanent: bool,
        judged: &Judged,
    ) -> Choice
        requires { IsSomeAnd (numbered number (daemon_of self.now).sweep.standings)
            (λ s. s.judged ≡ judged.now) }
        ensures runs { Runs Y.gives sysfs.old
            (by_standing (daemon_of self.now).sweep.judge number verdict permanent
            (numbered number (daemon_of self.now).sweep.standings)) result sysfs.new }
        ensures can_do { CanDo (daemon_of self.now) result.deed }
        ensures lines { HasReplyLines result.deed }
        ensures can_make { CanMake (daemon_of self.now).sweep.judge.rules result.change }
    {
        match self.table.probe(sysfs, number) {
            Probe::Alive(on) if permanent => self.choose_for_good(
                alloc, number, verdict, on, judged,
            ),
            Probe::Alive(on) => only(Deed::SetVerdict {
                number,
                verdict,
                on,
                lines: List::new(alloc),
            }),
            Probe::Gone => refuse(Refusal::NoDevice { number }),
            Probe::Failed => refuse(Refusal::ProbeFault {
                count: sysfs.faults(),
            }),
        }
    }

    // A verdict that is to be permanent, on a device that is there.
    fn choose_for_good(
        &self,
        alloc: Global,
        number: u64,
        verdict: Target,
        on: bool,
        judged: &Judged,
    ) -> Choice
        requires { IsSome (numbered number (daemon_of self.now).sweep.standings) }
        ensures chosen { IsChosenForGood (daemon_of self.now).sweep.judge number verdict on
            judged.now result }
        ensures can_do { CanDo (daemon_of self.now) result.deed }
        ensures lines { HasReplyLines result.deed }
        ensures can_make { CanMake (daemon_of self.now).sweep.judge.rules result.change }
    {
        match judged {
            Judged::Good(device) => self.choose_edit(alloc, number, verdict, on, device),
            Judged::Malformed { .. } => refuse(Refusal::MalformedDevice { number }),
        }
    }

    // By the device's record.
    fn choose_edit(
        &self,
        alloc: Global,
        number: u64,
        verdict: Target,
        on: bool,
        device: &DeviceRecord,
    ) -> Choice
        requires { IsSome (numbered number (daemon_of self.now).sweep.standings) }
        ensures chosen { (result ≡ by_edit (daemon_of self.now).sweep.judge number verdict on
            (verdict_edit device.now verdict (daemon_of self.now).sweep.judge))
            ⊎ (result ≡ refusing (Refusal.Memory false)) }
        ensures can_do { CanDo (daemon_of self.now) result.deed }
        ensures lines { HasReplyLines result.deed }
        ensures can_make { CanMake (daemon_of self.now).sweep.judge.rules result.change }
    {
        match self.policy.verdict_edit(alloc, device, verdict) {
            Ok(edit) => self.choose_made_edit(alloc, number, verdict, on, edit),
            Err(_) => refuse(Refusal::Memory { stands: false }),
        }
    }

    // An edit that gives the device its verdict.
    fn choose_made_edit(
        &self,
        alloc: Global,
        number: u64,
        verdict: Target,
        on: bool,
        edit: Edit,
    ) -> Choice
        requires stands { IsSome (numbered number (daemon_of self.now).sweep.standings) }
        requires can { if_room_for edit (daemon_of self.now).sweep.judge.rules ≡ None
            → CanMake (daemon_of self.now).sweep.judge.rules (Some (Change.Rules edit)) }
        ensures chosen { (result ≡ by_edit (daemon_of self.now).sweep.judge number verdict on edit)
            ⊎ (result ≡ refusing (Refusal.Memory false)) }
        ensures can_do { CanDo (daemon_of self.now) result.deed }
        ensures lines { HasReplyLines result.deed }
        ensures can_make { CanMake (daemon_of self.now).sweep.judge.rules result.change }
    {
        match self.answer_edit(alloc, &edit) {
            Ok(lines) => change(
                Change::Rules(edit),
                Deed::SetVerdict {
                    number,
                    verdict,
                    on,
                    lines,
                },
            ),
            Err(refusal) => {
                edit.discard();
                refuse(refusal)
            }
        }
    }

    // The lines of the reply to the edit, or why it isn't done.
    fn answer_edit(&self, alloc: Global, edit: &Edit) -> Result<List<Text>, Refusal>
        ensures free { OnOk result
            (if_room_for edit.now (daemon_of self.now).sweep.judge.rules ≡ None) }
        ensures lines { IfOk result (λ lines. lines
            ≡ change_lines (Change.Rules edit.now) (daemon_of self.now).sweep.judge.next) }
        ensures whole { IfOk result (λ lines. AreLines lines) }
        ensures refused { IfErr result (λ refused.
            (if_room_for edit.now (daemon_of self.now).sweep.judge.rules ≡ Some refused)
            ⊎ (refused ≡ Refusal.Memory false)) }
    {
        if let Some(refusal) = self.policy.refuse_edit(edit) {
            return Err(refusal);
        }
        match edit_lines(alloc, edit, self.policy.next_id()) {
            Ok(lines) => Ok(lines),
            Err(_) => Err(Refusal::Memory { stands: false }),
        }
    }
}
