// A query against another query.
ghost use Rattle.std.specs.Prelude.{◌≡◌};
ghost use Rattle.ug_match.specs.Covers.{covers_text};
ghost use Rattle.ug_lint.specs.Covers.{id_covers, interface_covers};
ghost use Rattle.ug_lint.specs.Implied as queries;

use crate::operators::{many_implied, one_implied};
use ug_types::{Id, Iface, Query, Text, Values};

fn id_implied(values: &Option<Values<Id>>, others: &Option<Values<Id>>) -> bool
    ensures { result ≡ queries.given_implied (queries.one_implied id_covers) values.now others.now }
{
    match (values, others) {
        (None, _) => true,
        (Some(_), None) => false,
        (Some(values), Some(others)) => one_implied(values, others),
    }
}

fn text_implied(values: &Option<Values<Text>>, others: &Option<Values<Text>>) -> bool
    ensures { result ≡ queries.given_implied
        (queries.one_implied covers_text) values.now others.now }
{
    match (values, others) {
        (None, _) => true,
        (Some(_), None) => false,
        (Some(values), Some(others)) => one_implied(values, others),
    }
}

fn interfaces_implied(values: &Option<Values<Iface>>, others: &Option<Values<Iface>>) -> bool
    ensures { result ≡ queries.given_implied
        (queries.many_implied interface_covers) values.now others.now }
{
    match (values, others) {
        (None, _) => true,
        (Some(_), None) => false,
        (Some(values), Some(others)) => many_implied(values, others),
    }
}

/// Whether each attribute that the query gives, but the label, is given by the other query and implied by it, so that the
/// query matches each device that the other one matches. It takes no memory.
#[tactic(auto, unfolding(crate::specs::Implied::query_implied))]
pub fn is_implied(query: &Query, other: &Query) -> bool
    ensures { result ≡ queries.query_implied query.now other.now }
{
    id_implied(&query.id, &other.id)
        && text_implied(&query.serial, &other.serial)
        && text_implied(&query.name, &other.name)
        && text_implied(&query.hash, &other.hash)
        && text_implied(&query.parent_hash, &other.parent_hash)
        && text_implied(&query.via_port, &other.via_port)
        && interfaces_implied(&query.interface, &other.interface)
        && text_implied(&query.connect, &other.connect)
}
