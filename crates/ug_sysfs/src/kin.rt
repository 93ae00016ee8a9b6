// Whose children devices are, and how they go with it.
ghost use Rattle.std.specs.Prelude.{◌≡◌, ◌<◌, length, vec_capacity, vec_len};
ghost use Rattle.std.specs.List.{slice_get};
ghost use Rattle.ug_sysfs.specs.Kin.{Fells, HasKin, kin_born, older_in, with_child, youngest_under};

use crate::roster::Roster;

/// How a device stands among its kin, by their places.
#[derive(Clone, Copy)]
pub struct Kin {
    /// The last child that was born.
    pub youngest: Option<usize>,
    /// The child of the same parent that was born before it.
    pub older: Option<usize>,
}

fn youngest_under(kin: &[Kin], parent: Option<usize>) -> Option<usize>
    ensures { result ≡ youngest_under parent kin.now }
{
    match parent {
        Some(parent) => match kin.get(parent) {
            Some(kin) => kin.youngest,
            None => None,
        },
        None => None,
    }
}

// The next older child of the same parent.
fn next_older(kin: &[Kin], child: usize) -> Option<usize>
    ensures { result ≡ older_in (slice_get kin.now child) }
{
    match kin.get(child) {
        Some(kin) => kin.older,
        None => None,
    }
}

// The parent leads to its youngest child.
fn lead(kin: &mut Vec<Kin>, child: usize, parent: Option<usize>)
    ensures items { kin.new.items ≡ with_child child parent kin.old.items }
    ensures capacity { vec_capacity kin.new ≡ vec_capacity kin.old }
{
    if let Some(parent) = parent {
        if parent < kin.len() {
            kin[parent].youngest = Some(child);
        }
    }
}

/// One more device is born, below that parent. There is room for it.
pub fn bear(kin: &mut Vec<Kin>, parent: Option<usize>)
    requires { vec_len kin.old < vec_capacity kin.old }
    ensures items { kin.new.items ≡ kin_born parent kin.old.items }
    ensures capacity { vec_capacity kin.new ≡ vec_capacity kin.old }
{
    let older = youngest_under(kin, parent);
    let child = kin.len();
    lead(kin, child, parent);
    kin.push_reserved(Kin {
        youngest: None,
        older,
    });
}

/// A device goes, and what is below it.
pub fn fell(roster: &mut Roster, kin: &[Kin], place: usize)
    requires kin { HasKin kin.now roster.old.devices }
    requires place { place < length roster.old.devices }
    ensures devices { Fells place roster.old.devices roster.new.devices }
    ensures room { roster.new.room ≡ roster.old.room }
{
    if !roster.fell(place) {
        return;
    }
    let mut next = youngest_under(kin, Some(place));
    while let Some(child) = next {
        fell(roster, kin, child);
        next = next_older(kin, child);
    }
}
