// Rules as usbguard-rules.conf(5) has them.
use crate::list::List;
use crate::text::Text;
use crate::verdict::Target;

/// A vendor and a product, each of which may be any.
#[derive(Clone, Copy)]
pub struct Id {
    pub vendor: Option<u16>,
    pub product: Option<u16>,
}

/// An interface type, whose subclass and protocol may be any.
#[derive(Clone, Copy)]
pub struct Iface {
    pub class: u8,
    pub subclass: Option<u8>,
    pub protocol: Option<u8>,
}

/// How a set of values is compared.
#[derive(Clone, Copy)]
pub enum Op {
    AllOf,
    OneOf,
    NoneOf,
    Equals,
    EqualsOrdered,
}

/// A set of values and its operator. A single value has `Equals`.
#[derive(Drop)]
pub struct Values<T> {
    pub op: Op,
    pub items: List<T>,
}

/// The attributes of a rule. One that isn't given matches every device.
#[derive(Drop)]
pub struct Query {
    pub id: Option<Values<Id>>,
    pub serial: Option<Values<Text>>,
    pub name: Option<Values<Text>>,
    pub hash: Option<Values<Text>>,
    pub parent_hash: Option<Values<Text>>,
    pub via_port: Option<Values<Text>>,
    pub interface: Option<Values<Iface>>,
    pub connect: Option<Values<Text>>,
    pub label: Option<Text>,
}

/// A condition without its negation.
#[derive(Drop)]
pub enum CondKind {
    /// Seconds of the day. An end before the begin is on the next day.
    LocalTime { begin: u32, end: u32 },
    AllowedMatches(Query),
    /// Within that many seconds, or ever.
    RuleApplied(Option<u32>),
    RuleEvaluated(Option<u32>),
    /// A probability, times 1,000,000,000.
    Random(u32),
    True,
    False,
}

#[derive(Drop)]
pub struct Cond {
    pub negated: bool,
    pub kind: CondKind,
}

#[derive(Drop)]
pub struct Conds {
    pub op: Op,
    pub items: List<Cond>,
}

#[derive(Drop)]
pub struct Rule {
    pub target: Target,
    pub query: Query,
    pub conds: Option<Conds>,
}

impl Query {
    /// Drops it. A crate that calls this need not prove how its parts are dropped.
    pub fn discard(self) {}
}

impl Rule {
    /// The same of a rule.
    pub fn discard(self) {}
}

/// The same of a list of rules.
pub fn discard_rules(rules: Vec<Rule>) {
    drop(rules);
}

/// Where a rule is put among others: usbguard(1), append-rule.
#[derive(Clone, Copy)]
pub enum After {
    End,
    Front,
    /// Behind the rule of that id.
    Rule(u64),
}
