// Conditions of which it is certain that they hold or that they don't.
ghost use Rattle.std.specs.Prelude.{◌≡◌};
ghost use Rattle.std.specs.List.{list_all, list_any};
ghost use Rattle.ug_lint.specs.Certain as certain;

use ug_types::{Cond, CondKind, Conds, Op};

const ONE: u32 = 1_000_000_000;

fn is_true(kind: &CondKind) -> bool
    ensures { result ≡ certain.is_true kind.now }
{
    match kind {
        CondKind::True => true,
        CondKind::Random(billionths) => *billionths == ONE,
        _ => false,
    }
}

fn is_false(kind: &CondKind) -> bool
    ensures { result ≡ certain.is_false kind.now }
{
    match kind {
        CondKind::False => true,
        CondKind::Random(billionths) => *billionths == 0,
        _ => false,
    }
}

fn is_sure(cond: &Cond) -> bool
    ensures { result ≡ certain.is_sure cond.now }
{
    if cond.negated {
        is_false(&cond.kind)
    } else {
        is_true(&cond.kind)
    }
}

fn is_hopeless(cond: &Cond) -> bool
    ensures { result ≡ certain.is_hopeless cond.now }
{
    if cond.negated {
        is_true(&cond.kind)
    } else {
        is_false(&cond.kind)
    }
}

fn each_sure(conds: &[Cond]) -> bool
    ensures { result ≡ list_all certain.is_sure conds.now }
{
    conds.iter().all(is_sure)
}

fn some_sure(conds: &[Cond]) -> bool
    ensures { result ≡ list_any certain.is_sure conds.now }
{
    conds.iter().any(is_sure)
}

fn each_hopeless(conds: &[Cond]) -> bool
    ensures { result ≡ list_all certain.is_hopeless conds.now }
{
    conds.iter().all(is_hopeless)
}

fn some_hopeless(conds: &[Cond]) -> bool
    ensures { result ≡ list_any certain.is_hopeless conds.now }
{
    conds.iter().any(is_hopeless)
}

fn always_by(op: Op, conds: &[Cond]) -> bool
    ensures { result ≡ certain.always_by op conds.now }
{
    match op {
        Op::AllOf | Op::Equals | Op::EqualsOrdered => each_sure(conds),
        Op::OneOf => some_sure(conds),
        Op::NoneOf => each_hopeless(conds),
    }
}

fn never_by(op: Op, conds: &[Cond]) -> bool
    ensures { result ≡ certain.never_by op conds.now }
{
    match op {
        Op::AllOf | Op::Equals | Op::EqualsOrdered => some_hopeless(conds),
        Op::OneOf => each_hopeless(conds),
        Op::NoneOf => some_sure(conds),
    }
}

/// Whether the conditions of a rule hold for every device and at every moment.
pub fn always_hold(conds: &Option<Conds>) -> bool
    ensures { result ≡ certain.always_hold conds.now }
{
    match conds {
        Some(conds) => always_by(conds.op, conds.items.as_slice()),
        None => true,
    }
}

/// Whether the conditions of a rule hold for no device and at no moment.
pub fn never_hold(conds: &Option<Conds>) -> bool
    ensures { result ≡ certain.never_hold conds.now }
{
    match conds {
        Some(conds) => never_by(conds.op, conds.items.as_slice()),
        None => false,
    }
}
