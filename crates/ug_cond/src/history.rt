// What is kept of a rule's past.
use ug_types::Moment;

/// The greatest moment at which a rule was evaluated, which is reached and matched, and the greatest at which it was
/// applied, which is decided: usbguard-rules.conf(5), rule-evaluated and rule-applied. None where it never was.
#[derive(Clone, Copy)]
pub struct History {
    pub evaluated: Option<Moment>,
    pub applied: Option<Moment>,
}
