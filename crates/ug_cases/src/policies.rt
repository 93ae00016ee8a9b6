// Lists of rules, changed and asked line by line.
use crate::session::Session;
use std::alloc::Global;
use ug_casefile::Answer;

/// What each line of a session tells.
pub fn tell(alloc: Global, told: &mut Answer, text: &[u8]) {
    let mut session = Session::new(alloc);
    let mut first = true;
    for line in text.split(|byte| *byte == b'\n') {
        if !first {
            told.add(b"\n");
        }
        session.answer(told, line);
        first = false;
    }
}
