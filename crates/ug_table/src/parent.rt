// A device whose parent has a standing is bound by the parent's held file, and judged under the hash that is kept of it.
ghost use Rattle.std.specs.Prelude.{◌≡◌, IfOk, Some, option_copied};
ghost use Rattle.ug_types.specs.Names.{parent_of};
ghost use Rattle.ug_kernel.specs.Tree.{Runs};
ghost use Rattle.ug_table.specs.Parent.{binding_by, bound_hash, judged_beside, parent_standing};
ghost use Rattle.ug_table.specs.declared.standing.Standing.{Standing};

use crate::kept::Standings;
use crate::standing::Standing;
use std::alloc::Global;
use ug_kernel::{Binding, Bound, Sysfs, bind, bind_under};
use ug_record::{parent_hash, record_and_hash};
use ug_types::{Judged, NoMemory, NodeName, Text};

/// The standing of a name's parent.
pub fn parent_standing<'a>(standings: &'a Standings, name: &NodeName) -> Option<&'a Standing>
    ensures standing { option_copied result ≡ parent_standing name.now standings.now.items }
    ensures parent { (s : Standing) → option_copied result ≡ Some s
        → parent_of name.now ≡ Some s.name }
{
    match name.parent() {
        Some(parent) => standings.named(&parent),
        None => None,
    }
}

/// Binds a name: by the held file of its parent's standing, where that has one.
pub fn bind_name<Y: Sysfs>(
    alloc: Global,
    sysfs: &mut Y,
    name: &NodeName,
    parent: Option<&Standing>,
) -> Binding
    requires { (s : Standing) → option_copied parent ≡ Some s
        → parent_of name.now ≡ Some s.name }
    ensures { Runs Y.gives sysfs.old (binding_by name.now (option_copied parent.entry))
        result sysfs.new }
{
    match parent {
        Some(parent) => bind_under(alloc, sysfs, name, parent.held),
        None => bind(alloc, sysfs, name),
    }
}

/// What is known of a bound device, and the hash that its children will see: under the hash that is kept of its parent, where
/// none of the parent's files was read, and else under theirs.
#[tactic(auto, unfolding(ug_record::specs::Records::judged_of))]
pub fn facts_of(
    alloc: Global,
    name: &NodeName,
    bound: &Bound,
    parent: Option<&Standing>,
) -> Result<(Judged, Text), NoMemory>
    ensures judged { IfOk result (λ made. made.0
        ≡ judged_beside name.now bound.now.attrs (option_copied parent.entry) bound.now.parent) }
    ensures hash { IfOk result (λ made. made.1 ≡ bound_hash bound.now) }
{
    match (parent, &bound.parent) {
        (Some(above), None) => {
            record_and_hash(
                alloc,
                name,
                &bound.attrs,
                bound.core_long,
                above.hash.bytes(),
            )
        }
        (_, read) => {
            let hash = parent_hash(alloc, read.as_ref())?;
            let facts = record_and_hash(alloc, name, &bound.attrs, bound.core_long, hash.bytes());
            drop(hash);
            facts
        }
    }
}
