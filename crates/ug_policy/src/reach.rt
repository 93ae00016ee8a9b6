// Which ids a rule can match.
ghost use Rattle.std.specs.Prelude.{◌≡◌, ◌<◌};
ghost use Rattle.ug_policy.specs.Reaches as reaches;

use ug_types::{Id, Op, Query, Values};

/// Which ids a rule can match, as far as the index tells them apart.
#[derive(Clone, Copy)]
pub enum Reach {
    /// One id alone, whose vendor and product have that remainder.
    Narrow(u8),
    Wide,
}

/// The remainder by which ids are told apart.
pub fn remainder(vendor: u16, product: u16) -> u8
    ensures value { result ≡ reaches.remainder vendor product }
    ensures below { result < 64 }
{
    ((vendor as u32 + product as u32) % 64) as u8
}

fn reach_of_id(id: &Id) -> Reach
    ensures { result ≡ reaches.reach_of_numbers id.now.vendor id.now.product }
{
    match id.vendor {
        Some(vendor) => match id.product {
            Some(product) => Reach::Narrow(remainder(vendor, product)),
            None => Reach::Wide,
        },
        None => Reach::Wide,
    }
}

fn reach_of_ids(ids: &[Id]) -> Reach
    ensures { result ≡ reaches.reach_of_ids ids.now }
{
    match ids {
        [id] => reach_of_id(id),
        _ => Reach::Wide,
    }
}

/// Which ids a query can match.
pub fn reach_of(query: &Query) -> Reach
    ensures { result ≡ reaches.reach_of query.now }
{
    match &query.id {
        Some(values) => match values.op {
            Op::NoneOf => Reach::Wide,
            Op::AllOf => reach_of_ids(values.items.as_slice()),
            Op::OneOf => reach_of_ids(values.items.as_slice()),
            Op::Equals => reach_of_ids(values.items.as_slice()),
            Op::EqualsOrdered => reach_of_ids(values.items.as_slice()),
        },
        None => Reach::Wide,
    }
}
