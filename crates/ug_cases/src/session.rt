// A list of rules, the words of a generator, and the devices that are allowed.
ghost use Rattle.std.specs.Bool.{OnTrue};
ghost use Rattle.ug_types.specs.Elements.{Has};
ghost use Rattle.ug_policy.specs.Edits.{IsThere};
ghost use Rattle.ug_policy.specs.Rules.{ids};

use rand_chacha::ChaCha20Rng;
use rand_core::{Rng, SeedableRng};
use std::alloc::Global;
use ug_casefile::{Answer, number_of, split_word};
use ug_cond::{Allowed, Context, FixedZone, History, Zone, holds};
use ug_match::matches;
use ug_policy::{MAX_RULES, Mark, RuleEntry, RuleList};
use ug_rule::{parse_query, parse_rule};
use ug_types::{
    After, Cause, Conds, DeviceRecord, Id, List, Moment, NodeName, Query, Rule, Target, Text,
};

#[derive(Drop)]
struct Devices {
    records: List<DeviceRecord>,
}

impl Allowed for Devices {
    ghost records = { λ d. d.records };

    fn any_allowed(&self, query: &Query) -> bool {
        let records = self.records.as_slice();
        records.iter().any(|record| matches(query, record))
    }
}

#[derive(Drop)]
pub struct Session {
    alloc: Global,
    list: RuleList,
    rng: ChaCha20Rng,
    history: History,
    allowed: Devices,
}

fn context(moment: u64) -> Context {
    Context {
        moment: Moment(moment),
        second: FixedZone::UTC.local_second(Moment(moment)),
    }
}

fn moment_of(word: &[u8]) -> Option<Moment> {
    if word == b"-".as_slice() {
        return None;
    }
    number_of(word).map(Moment)
}

fn add_moment(told: &mut Answer, moment: Option<Moment>) {
    match moment {
        Some(moment) => told.add_number(moment.0),
        None => told.add(b"-"),
    }
}

// The id that a word spells.
fn id_in(alloc: Global, word: &[u8]) -> Option<Id> {
    let query = parse_query(alloc, word).ok()?;
    id_of(&query)
}

// The id of a query that is one.
fn id_of(query: &Query) -> Option<Id> {
    query.id.as_ref()?.items.as_slice().first().copied()
}

fn rule_line(alloc: Global, conditions: &[u8]) -> Option<Vec<u8>> {
    let mut line = Answer::new(alloc);
    line.add(b"allow if ");
    line.add(conditions);
    line.finish().ok()
}

fn conditions_of(alloc: Global, text: &[u8]) -> Option<Conds> {
    let line = rule_line(alloc, text)?;
    let rule = parse_rule(alloc, &line).ok()?;
    rule.conds
}

fn has_rule(rules: &[RuleEntry], id: u64) -> bool
    ensures { OnTrue result (Has (ids rules.now) id) }
{
    for entry in rules {
        if entry.id == id {
            return true;
        }
    }
    false
}

// Whether a rule can be put there.
fn is_there(list: &RuleList, after: After) -> bool
    ensures { OnTrue result (IsThere after list.now.entries) }
{
    match after {
        After::Front | After::End => true,
        After::Rule(id) => has_rule(list.as_slice(), id),
    }
}

fn done_or_no_rule(done: bool) -> &'static [u8] {
    if done { b"done" } else { b"no rule" }
}

fn add_past(told: &mut Answer, entry: &RuleEntry) {
    told.add(b"evaluated ");
    add_moment(told, entry.history.evaluated);
    told.add(b", applied ");
    add_moment(told, entry.history.applied);
}

fn add_cause(told: &mut Answer, cause: Cause) {
    match cause {
        Cause::Rule(id) => {
            told.add(b" by rule ");
            told.add_number(id);
        }
        _ => told.add(b" by none"),
    }
}

impl Session {
    pub fn new(alloc: Global) -> Session {
        Session {
            alloc,
            list: RuleList::new(alloc),
            rng: ChaCha20Rng::from_seed([0; 32]),
            history: History {
                evaluated: None,
                applied: None,
            },
            allowed: Devices {
                records: List::new(alloc),
            },
        }
    }

    // A key of that id at the port 2 of bus 1, without interfaces.
    fn key_of(&self, id: Id, via_port: NodeName, name: Text) -> DeviceRecord {
        DeviceRecord {
            vendor: id.vendor.unwrap_or(0),
            product: id.product.unwrap_or(0),
            serial: Text::new(self.alloc),
            name,
            hash: [b'a'; 44],
            parent_hash: Text::new(self.alloc),
            via_port,
            interfaces: List::new(self.alloc),
            connect: Text::new(self.alloc),
        }
    }

    // None where the word is no id.
    fn key(&self, told: &mut Answer, word: &[u8]) -> Option<DeviceRecord> {
        let id = id_in(self.alloc, word)?;
        let via_port = NodeName::parse(b"1-2").ok()?;
        match Text::of(self.alloc, b"Key") {
            Ok(name) => Some(self.key_of(id, via_port, name)),
            Err(_) => {
                told.fall_short();
                None
            }
        }
    }

    fn insert(&mut self, told: &mut Answer, after: After, rule: Rule) {
        if self.list.reserve().is_err() {
            told.fall_short();
        } else if self.list.next_id() == u64::MAX {
            told.add(b"no number");
        } else if !is_there(&self.list, after) {
            told.add(b"no rule");
        } else if self.list.len() >= MAX_RULES {
            told.add(b"full");
        } else {
            told.add(b"rule ");
            told.add_number(self.list.insert(after, rule, Mark::Temporary));
        }
    }

    fn add(&mut self, told: &mut Answer, after: After, line: &[u8]) {
        match parse_rule(self.alloc, line) {
            Ok(rule) => self.insert(told, after, rule),
            Err(_) => told.add(b"no such rule"),
        }
    }

    // `COUNT RULE`: what the last of them tells
    fn fill(&mut self, told: &mut Answer, line: &[u8]) {
        let (count, line) = split_word(line);
        let mut last = Answer::new(self.alloc);
        last.add(b"nothing");
        for _ in 0..number_of(count).unwrap_or(0) {
            last.clear();
            self.add(&mut last, After::End, line);
        }
        told.add_answer(&last);
    }

    // `ID RULE`
    fn add_behind(&mut self, told: &mut Answer, line: &[u8]) {
        let (id, line) = split_word(line);
        self.add(told, After::Rule(number_of(id).unwrap_or(0)), line);
    }

    fn remove(&mut self, told: &mut Answer, word: &[u8]) {
        let id = number_of(word).unwrap_or(0);
        told.add(done_or_no_rule(self.list.remove(id).is_ok()));
    }

    // `ID TARGET`
    fn set_target(&mut self, told: &mut Answer, line: &[u8]) {
        let (id, target) = split_word(line);
        let id = number_of(id).unwrap_or(0);
        let target = Target::named(target).unwrap_or(Target::Reject);
        told.add(done_or_no_rule(self.list.set_target(id, target).is_ok()));
    }

    fn ids(&self, told: &mut Answer) {
        told.add(b"rules");
        for place in 0..self.list.len() {
            if let Some(entry) = self.list.entry(place) {
                told.add(b" ");
                told.add_number(entry.id);
            }
        }
    }

    fn length(&self, told: &mut Answer) {
        told.add_number(self.list.len() as u64);
        told.add(b" rules, the next is ");
        told.add_number(self.list.next_id());
    }

    // The past of the rule at that place.
    fn past(&self, told: &mut Answer, word: &[u8]) {
        let place = usize::try_from(number_of(word).unwrap_or(0)).unwrap_or(0);
        match self.list.entry(place) {
            Some(entry) => add_past(told, entry),
            None => told.add(b"no rule"),
        }
    }

    fn judge_key(&mut self, told: &mut Answer, moment: u64, key: &DeviceRecord) {
        let context = context(moment);
        let (verdict, cause) = self
            .list
            .judge(key, &context, &self.allowed, Target::Block, &mut self.rng);
        told.add(verdict.word());
        add_cause(told, cause);
    }

    // `MOMENT ID`
    fn judge(&mut self, told: &mut Answer, line: &[u8]) {
        let (moment, word) = split_word(line);
        match self.key(told, word) {
            Some(key) => self.judge_key(told, number_of(moment).unwrap_or(0), &key),
            None => told.add(b"no device"),
        }
    }

    fn are_met(&mut self, conditions: &Conds, moment: u64) -> bool {
        holds(
            conditions,
            &self.history,
            &context(moment),
            &self.allowed,
            &mut self.rng,
        )
    }

    // `MOMENT CONDITIONS`
    fn ask(&mut self, told: &mut Answer, line: &[u8]) {
        let (moment, conditions) = split_word(line);
        match conditions_of(self.alloc, conditions) {
            Some(conditions) => {
                let met = self.are_met(&conditions, number_of(moment).unwrap_or(0));
                told.add(if met { b"yes" } else { b"no" });
            }
            None => told.add(b"no conditions"),
        }
    }

    // `EVALUATED APPLIED`, each a moment or `-`
    fn set_history(&mut self, told: &mut Answer, line: &[u8]) {
        let (evaluated, applied) = split_word(line);
        self.history = History {
            evaluated: moment_of(evaluated),
            applied: moment_of(applied),
        };
        told.add(b"done");
    }

    fn allow_key(&mut self, told: &mut Answer, key: DeviceRecord) {
        match self.allowed.records.push(key) {
            Ok(()) => told.add(b"done"),
            Err(_) => told.fall_short(),
        }
    }

    fn allow(&mut self, told: &mut Answer, word: &[u8]) {
        match self.key(told, word) {
            Some(key) => self.allow_key(told, key),
            None => told.add(b"no device"),
        }
    }

    fn seed(&mut self, told: &mut Answer) {
        self.rng = ChaCha20Rng::from_seed([0; 32]);
        told.add(b"done");
    }

    fn next_word(&mut self, told: &mut Answer) {
        for byte in self.rng.next_u64().to_be_bytes() {
            told.add_digits(byte);
        }
    }

    fn answer_change(&mut self, told: &mut Answer, verb: &str, rest: &[u8]) {
        match verb {
            "last" => self.add(told, After::End, rest),
            "first" => self.add(told, After::Front, rest),
            "behind" => self.add_behind(told, rest),
            "fill" => self.fill(told, rest),
            "remove" => self.remove(told, rest),
            "target" => self.set_target(told, rest),
            "history" => self.set_history(told, rest),
            "allow" => self.allow(told, rest),
            "seed" => self.seed(told),
            _ => told.add(b"no such verb"),
        }
    }

    /// Adds what a line tells: a verb and its words.
    pub fn answer(&mut self, told: &mut Answer, line: &[u8]) {
        let (verb, rest) = split_word(line);
        match str::from_utf8(verb).unwrap_or("") {
            "judge" => self.judge(told, rest),
            "ask" => self.ask(told, rest),
            "ids" => self.ids(told),
            "length" => self.length(told),
            "past" => self.past(told, rest),
            "word" => self.next_word(told),
            verb => self.answer_change(told, verb, rest),
        }
    }
}
