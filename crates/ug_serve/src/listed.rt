// Users and groups, each once, in byte order.
ghost use Rattle.std.specs.Prelude.{◌≡◌, ◌<◌, ◌^◌, length, IfOk, OnOk};
ghost use Rattle.std.specs.Cmp.Lexicographic.{slice_cmp};
ghost use Rattle.std.specs.List.Sorted.{IsPermutation};
ghost use Rattle.std.specs.Ordering.{nat_cmp};
ghost use Rattle.ug_types.specs.Principals.{principal_text};
ghost use Rattle.ug_serve.specs.Access.{AreListed, AreOnce, IsInByteOrder, with_new};

use std::alloc::Global;
use std::cmp::Ordering;
use ug_types::{Line, List, NoMemory, Principal};

fn push_new(principals: &mut Vec<Principal>, who: &Principal) -> Result<(), NoMemory>
    ensures { OnOk result (principals.new.items ≡ with_new who.now principals.old.items) }
{
    if !principals.as_slice().contains(who) {
        principals.push(*who)?;
    }
    Ok(())
}

fn list_once(alloc: Global, added: &[Principal]) -> Result<Vec<Principal>, NoMemory>
    ensures { IfOk result (λ principals. AreOnce added.now principals.items) }
{
    let mut principals = Vec::new(alloc);
    for who in added {
        push_new(&mut principals, who)?;
    }
    Ok(principals)
}

fn compare_names(a: &Principal, b: &Principal) -> Ordering
    ensures { result ≡ slice_cmp nat_cmp (principal_text a.now) (principal_text b.now) }
{
    Line::naming(a).bytes().cmp(Line::naming(b).bytes())
}

fn sort(principals: Vec<Principal>) -> List<Principal>
    ensures all { IsPermutation principals.items result }
    ensures len { length result ≡ length principals.items }
    ensures in_order { IsInByteOrder principal_text result }
{
    let mut principals = principals;
    principals.sort_unstable_by(compare_names);
    List::from_vec(principals)
}

/// Each of these once, in byte order. More than the links can number take more memory than there is.
pub fn list_in_order(alloc: Global, added: &[Principal]) -> Result<List<Principal>, NoMemory>
    ensures listed { IfOk result (λ principals. AreListed added.now principals) }
    ensures few { IfOk result (λ principals. length principals < 2 ^ 32) }
{
    let principals = list_once(alloc, added)?;
    if principals.len() > u32::MAX as usize {
        return Err(NoMemory);
    }
    Ok(sort(principals))
}
