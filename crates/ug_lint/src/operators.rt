// Sets of values of a rule against those of another rule.
ghost use Rattle.std.specs.Prelude.{◌≡◌};
ghost use Rattle.ug_match.specs.Operators.{in_order, is_matched, matches_some};
ghost use Rattle.ug_lint.specs.Implied as sets;

use crate::covers::Covers;
use ug_types::{Op, Values};

fn covers_some<T: Covers>(value: &T, others: &[T]) -> bool
    ensures { result ≡ matches_some T.covers others.now value.now }
{
    for other in others {
        if value.covers(other) {
            return true;
        }
    }
    false
}

fn covers_all<T: Covers>(value: &T, others: &[T]) -> bool
    ensures { result ≡ sets.covers_all T.covers others.now value.now }
{
    for other in others {
        if !value.covers(other) {
            return false;
        }
    }
    true
}

fn is_covered<T: Covers>(values: &[T], other: &T) -> bool
    ensures { result ≡ is_matched T.covers values.now other.now }
{
    for value in values {
        if value.covers(other) {
            return true;
        }
    }
    false
}

fn some_covers<T: Covers>(values: &[T], others: &[T]) -> bool
    ensures { result ≡ sets.some_covers T.covers values.now others.now }
{
    for value in values {
        if covers_some(value, others) {
            return true;
        }
    }
    false
}

fn each_covers<T: Covers>(values: &[T], others: &[T]) -> bool
    ensures { result ≡ sets.each_covers T.covers values.now others.now }
{
    for value in values {
        if !covers_some(value, others) {
            return false;
        }
    }
    true
}

fn each_covers_all<T: Covers>(values: &[T], others: &[T]) -> bool
    ensures { result ≡ sets.each_covers_all T.covers values.now others.now }
{
    for value in values {
        if !covers_all(value, others) {
            return false;
        }
    }
    true
}

fn each_covered<T: Covers>(values: &[T], others: &[T]) -> bool
    ensures { result ≡ sets.each_covered T.covers values.now others.now }
{
    for other in others {
        if !is_covered(values, other) {
            return false;
        }
    }
    true
}

fn covers_in_order<T: Covers>(values: &[T], others: &[T]) -> bool
    ensures { result ≡ in_order T.covers values.now others.now }
{
    if values.len() != others.len() {
        return false;
    }
    for place in 0..values.len() {
        if !values[place].covers(&others[place]) {
            return false;
        }
    }
    true
}

fn all_of_implied<T: Covers>(values: &[T], op: Op, others: &[T]) -> bool
    ensures { result ≡ sets.all_of_implied T.covers values.now op others.now }
{
    match op {
        Op::AllOf | Op::Equals | Op::EqualsOrdered => each_covers(values, others),
        Op::OneOf => each_covers_all(values, others),
        Op::NoneOf => false,
    }
}

fn one_of_implied<T: Covers>(values: &[T], op: Op, others: &[T]) -> bool
    ensures { result ≡ sets.one_of_implied T.covers values.now op others.now }
{
    match op {
        Op::AllOf | Op::Equals | Op::EqualsOrdered => some_covers(values, others),
        Op::OneOf => each_covered(values, others),
        Op::NoneOf => false,
    }
}

fn none_of_implied<T: Covers>(values: &[T], op: Op, others: &[T]) -> bool
    ensures { result ≡ sets.none_of_implied T.covers values.now op others.now }
{
    match op {
        Op::NoneOf => each_covered(others, values),
        Op::AllOf | Op::OneOf | Op::Equals | Op::EqualsOrdered => false,
    }
}

fn equals_implied<T: Covers>(values: &[T], op: Op, others: &[T]) -> bool
    ensures { result ≡ sets.equals_implied T.covers values.now op others.now }
{
    match op {
        Op::Equals | Op::EqualsOrdered => {
            each_covers(values, others) && each_covered(values, others)
        }
        Op::AllOf | Op::OneOf | Op::NoneOf => false,
    }
}

fn ordered_implied<T: Covers>(values: &[T], op: Op, others: &[T]) -> bool
    ensures { result ≡ sets.ordered_implied T.covers values.now op others.now }
{
    match op {
        Op::EqualsOrdered => covers_in_order(values, others),
        Op::AllOf | Op::OneOf | Op::NoneOf | Op::Equals => false,
    }
}

fn set_implied<T: Covers>(op: Op, values: &[T], other_op: Op, others: &[T]) -> bool
    ensures { result ≡ sets.set_implied T.covers op values.now other_op others.now }
{
    match op {
        Op::AllOf => all_of_implied(values, other_op, others),
        Op::OneOf => one_of_implied(values, other_op, others),
        Op::NoneOf => none_of_implied(values, other_op, others),
        Op::Equals => equals_implied(values, other_op, others),
        Op::EqualsOrdered => ordered_implied(values, other_op, others),
    }
}

// Where a device has one value, equals says what all-of says, and so does an order of one item.
fn op_of_one<T>(values: &Values<T>) -> Op
    ensures { result ≡ sets.op_of_one values.now.op values.now.items }
{
    match values.op {
        Op::Equals => Op::AllOf,
        Op::EqualsOrdered => match values.items.as_slice() {
            [_] => Op::AllOf,
            _ => Op::EqualsOrdered,
        },
        op => op,
    }
}

/// Whether values of an attribute of which a device has one hold wherever the other values hold.
pub fn one_implied<T: Covers>(values: &Values<T>, others: &Values<T>) -> bool
    ensures { result ≡ sets.one_implied T.covers values.now others.now }
{
    set_implied(
        op_of_one(values),
        values.items.as_slice(),
        op_of_one(others),
        others.items.as_slice(),
    )
}

/// The same of an attribute of which a device can have many.
pub fn many_implied<T: Covers>(values: &Values<T>, others: &Values<T>) -> bool
    ensures { result ≡ sets.many_implied T.covers values.now others.now }
{
    set_implied(
        values.op,
        values.items.as_slice(),
        others.op,
        others.items.as_slice(),
    )
}
