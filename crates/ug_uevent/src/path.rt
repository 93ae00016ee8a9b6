// The name at the end of a device's path.
ghost use Rattle.std.specs.Prelude.{◌≡◌, ◌↔◌, ℕ, List, Some};
ghost use Rattle.ug_uevent.specs.Grammar.{IsNameIn};
ghost use Rattle.ug_uevent.specs.Cuts.{IsLastPlace};

use ug_types::NodeName;

// The place of the last slash.
fn last_slash(path: &[u8]) -> Option<usize>
    ensures { IsLastPlace 47 path.now result }
{
    let mut last = None;
    for (i, byte) in path.iter().enumerate() {
        if *byte == b'/' {
            last = Some(i);
        }
    }
    last
}

/// The part behind the last slash, where it is a name of a node. There is none without a slash.
pub fn name_in(path: &[u8]) -> Option<NodeName>
    ensures { (name : List ℕ) → (result ≡ Some name) ↔ IsNameIn path.now name }
{
    match last_slash(path) {
        Some(at) => match NodeName::parse(&path[at + 1..]) {
            Ok(name) => Some(name),
            Err(_) => None,
        },
        None => None,
    }
}
