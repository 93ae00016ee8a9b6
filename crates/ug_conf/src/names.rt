// Names with blanks between.
ghost use Rattle.std.specs.Prelude.{◌≡◌, ◌≤◌, IfOk, length};
ghost use Rattle.ug_conf.specs.Names.{words_between, all_named, first_blank};

use std::alloc::Global;
use ug_lines::{is_blank, without_front};
use ug_types::{List, NoMemory, Principal};

// How many bytes stand before the first blank.
fn word_length(text: &[u8]) -> usize
    ensures is { result ≡ first_blank text.now }
    ensures within { result ≤ length text.now }
{
    for (i, byte) in text.iter().enumerate() {
        if is_blank(*byte) {
            return i;
        }
    }
    text.len()
}

/// The users or the groups of the names, in their order; None where one of them is no name.
pub fn named(alloc: Global, group: bool, text: &[u8]) -> Result<Option<List<Principal>>, NoMemory>
    ensures { IfOk result (λ names. names ≡ all_named group (words_between text.now)) }
{
    let mut names = List::new(alloc);
    let mut rest = without_front(text);
    while !rest.is_empty() {
        let length = word_length(rest);
        match Principal::named(group, &rest[..length]) {
            Some(name) => names.push(name)?,
            None => return Ok(None),
        }
        rest = without_front(&rest[length..]);
    }
    Ok(Some(names))
}
