// Auditors that are given lines.
use std::alloc::Global;
use ug_audit::{Auditor, Panel, TextAuditor};

/// An auditor that fails at these lines, counted from 1.
pub fn auditor(alloc: Global, failing: &[u64]) -> Option<Box<dyn Auditor>> {
    let failing = Vec::from_slice(alloc, failing).ok()?;
    Some(Box::new(alloc, TextAuditor::new(alloc, failing)).ok()?)
}

/// A panel of auditors that fail at these lines.
pub fn panel(alloc: Global, all: &[&[u64]]) -> Option<Panel> {
    let mut members: Vec<Box<dyn Auditor>> = Vec::new(alloc);
    for failing in all {
        members.push(auditor(alloc, failing)?).ok()?;
    }
    if members.len() > 64 {
        return None;
    }
    Some(Panel::new(members))
}

fn is_dropped_in_turn(panel: &mut Panel) -> bool {
    let first = panel.note(b"event 1 sweep 7");
    let second = panel.note(b"dropped 5");
    let third = panel.note(b"end 1");
    let last = panel.note(b"event 2 sweep 8");
    [first, second, third, last] == [0, 2, 4, 0]
}

/// Whether the member of that number took that text.
pub fn took(panel: &Panel, i: usize, text: &[u8]) -> bool {
    i < panel.len() && panel.text(i) == Some(text)
}

#[test]
fn a_member_that_fails_is_given_no_more(rt: HostRuntime) {
    let mut panel = panel(rt.alloc(), &[&[], &[2], &[3]]).expect(&rt, "memory");
    assert!(rt; is_dropped_in_turn(&mut panel));
    assert!(rt; panel.len() == 3);
    assert!(rt;
        took(
            &panel,
            0,
            b"event 1 sweep 7\ndropped 5\nend 1\nevent 2 sweep 8\n"
        )
    );
    assert!(rt; took(&panel, 1, b"event 1 sweep 7\n"));
    assert!(rt; took(&panel, 2, b"event 1 sweep 7\ndropped 5\n"));
}
