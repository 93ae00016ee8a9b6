// Names of USB device nodes in sysfs.
ghost use Rattle.std.specs.Prelude.{◌≡◌, ◌<◌, ◌≤◌, ◌↔◌, ◌++◌, ℕ, [], None, IfOk, IsTrue, codes, length, nat_eq, vec_capacity};
ghost use Rattle.std.specs.Cmp.Lexicographic.{pointwise};
ghost use Rattle.std.proofs.Common.{rules, refl};
ghost use Rattle.std.proofs.lemmas.Cmp.{nat_list_eq_equiv};
ghost use Rattle.std.specs.Hash as fed;
ghost use Rattle.std.specs.Cmp as Cmp;
ghost use Rattle.std.specs.Cmp.Rules.{comparing, hashing};
ghost use Rattle.std.specs.Ordering.{as_partial_cmp};
ghost use Rattle.std.specs.List.Sorted.{IsSorted, IsPermutation};
ghost use Rattle.ug_types.specs.NodeNames.{IsNodeName, StopsAt};
ghost use Rattle.ug_types.specs.Names.{depth_of, parent_of, sweep_cmp};
ghost use Rattle.ug_types.specs.Sweep.{in_sweep_order, sweep_total, sweep_ties};

use crate::marks::{count_marks, first_dash, last_dot};
use crate::reading::stop;
use std::cmp::Ordering;
use std::hash::{Hash, Hasher};
use std::marker::Model;

/// The name of a device node: `usbN` for a root hub, `B-P`, `B-P.P` and so on for a device (sysfs-bus-usb).
/// Bus numbers go from 1 to 999, port numbers from 1 to 255.
#[derive(Clone, Copy)]
pub struct NodeName {
    bytes: [u8; 31],
    len: u8,
}

impl Model for NodeName {
    ghost use Rattle.std.specs.Prelude.{ℕ, List};

    ghost Value = { List ℕ };

    ghost use Rattle.ug_types.specs.Padded.{node_text, padded, HoldsNodeName, padded_text};

    ghost view = { node_text };

    ghost invariant = { HoldsNodeName };

    ghost inverse = { padded };

    ghost inverse_ok = { λ n h. padded_text n h.0 };
}

/// Why a text is no `NodeName`.
#[derive(Clone, Copy)]
pub enum NameFault {
    /// There are no bytes.
    Empty,
    /// The text stops being the beginning of a name at that place, or ends there too early.
    BadForm(u64),
    /// It is a name, of more than 31 bytes.
    TooLong,
}

impl NodeName {
    /// Reads a name. It takes no memory.
    pub fn parse(text: &[u8]) -> Result<NodeName, NameFault>
        ensures ok { (result ≡ Ok text.now) ↔ (IsNodeName text.now × (length text.now ≤ 31)) }
        ensures same { IfOk result (λ name. name ≡ text.now) }
        ensures empty { (result ≡ Err NameFault.Empty) ↔ (text.now ≡ []) }
        ensures too_long { (result ≡ Err NameFault.TooLong)
            ↔ (IsNodeName text.now × (31 < length text.now)) }
        ensures bad_form { (place : ℕ) → (result ≡ Err (NameFault.BadForm place))
            ↔ ((¬ (text.now ≡ [])) × (¬ IsNodeName text.now) × StopsAt text.now place) }
    {
        if text.is_empty() {
            return Err(NameFault::Empty);
        }
        if let Some(place) = stop(text) {
            return Err(NameFault::BadForm(place as u64));
        }
        if text.len() > 31 {
            return Err(NameFault::TooLong);
        }
        Ok(NodeName::holding(text))
    }

    fn holding(text: &[u8]) -> NodeName
        requires named { IsNodeName text.now }
        requires short { length text.now ≤ 31 }
        ensures { result ≡ text.now }
    {
        let mut bytes = [0; 31];
        bytes[..text.len()].copy_from_slice(text);
        NodeName {
            bytes,
            len: text.len() as u8,
        }
    }

    fn root_hub(bus: &[u8]) -> NodeName
        requires named { IsNodeName (codes "usb" ++ bus.now) }
        requires short { length bus.now ≤ 28 }
        ensures { result ≡ codes "usb" ++ bus.now }
    {
        let mut text = [0; 31];
        text[..3].copy_from_slice(b"usb");
        text[3..3 + bus.len()].copy_from_slice(bus);
        NodeName::holding(&text[..3 + bus.len()])
    }

    /// The parent of `1-2.3` is `1-2`, of `1-2` it is `usb1`, of `usb1` there is none.
    pub fn parent(&self) -> Option<NodeName>
        ensures { result ≡ parent_of self.now }
    {
        let text = &self.bytes[..self.len as usize];
        if let Some(dot) = last_dot(text) {
            return Some(NodeName::holding(&text[..dot]));
        }
        match first_dash(text) {
            Some(dash) => Some(NodeName::root_hub(&text[..dash])),
            None => None,
        }
    }

    /// A root hub has no parent.
    pub fn is_root(&self) -> bool
        ensures { IsTrue result ↔ (parent_of self.now ≡ None) }
    {
        self.parent().is_none()
    }

    /// The text of the name.
    pub fn bytes(&self) -> &[u8]
        ensures { result.now ≡ self.now }
    {
        &self.bytes[..self.len as usize]
    }

    /// The number of its bytes. Each value of this type is a name of the grammar.
    pub fn len(&self) -> usize
        ensures value { result ≡ length self.now }
        ensures short { result ≤ 31 }
        ensures named { IsNodeName self.now }
    {
        self.len as usize
    }

    /// How many parents are above: none above a root hub.
    pub fn depth(&self) -> u8
        ensures { result ≡ depth_of self.now }
    {
        count_marks(&self.bytes[..self.len as usize])
    }
}

impl PartialEq for NodeName {
    ghost eq = { pointwise nat_eq };

    ghost laws = { Cmp.partial_equiv_from_equiv nat_list_eq_equiv };

    fn eq(&self, other: &NodeName) -> bool {
        self.bytes() == other.bytes()
    }
}

impl Eq for NodeName {
    ghost laws = { nat_list_eq_equiv };
}

impl PartialOrd for NodeName {
    ghost partial_cmp = { as_partial_cmp sweep_cmp };

    ghost laws = { Cmp.partial_order_from_agreeing_total sweep_cmp sweep_total (λ a b.
        refl) sweep_ties };

    fn partial_cmp(&self, other: &NodeName) -> Option<Ordering> {
        Some(self.cmp(other))
    }
}

impl Ord for NodeName {
    ghost cmp = { sweep_cmp };

    ghost total = { sweep_total };

    ghost matches_partial_cmp = { λ a b. refl };

    ghost matches_eq = { sweep_ties };

    fn cmp(&self, other: &NodeName) -> Ordering {
        self.depth()
            .cmp(&other.depth())
            .then(self.bytes().cmp(&other.bytes()))
    }
}

/// By the number of parents above, then by bytes: a parent comes before what hangs on it.
pub fn sweep_order(a: &NodeName, b: &NodeName) -> Ordering
    ensures { result ≡ sweep_cmp a.now b.now }
{
    a.cmp(b)
}

/// Sorts by `sweep_order`. It takes no memory.
pub fn sort_names(names: &mut Vec<NodeName>)
    ensures items { names.new.items ≡ in_sweep_order names.old.items }
    ensures sorted { IsSorted sweep_cmp names.new.items }
    ensures permutation { IsPermutation names.old.items names.new.items }
    ensures capacity { vec_capacity names.new ≡ vec_capacity names.old }
{
    names.sort_unstable();
}

impl Hash for NodeName {
    ghost hash_input = { fed.slice fed.u8 };

    ghost respects_eq = { Prim.search (hashing, rules) };

    fn hash<H: Hasher>(&self, state: &mut H) {
        self.bytes().hash(state);
    }
}
