// Access files, printed grants, and who may do what.
use std::alloc::Global;
use ug_acl::{Acl, Grants, parse_access, parse_file_name};
use ug_types::{FileFault, Privilege, Section, TextFault};

fn is_printed(alloc: Global, grants: &Grants) -> bool {
    let wanted = b"Devices=modify,list\nParameters=modify,list,listen\n".as_slice();
    match Acl::print(alloc, grants) {
        Ok(text) => text.bytes() == wanted,
        Err(_) => false,
    }
}

#[test]
fn reads_and_prints_grants(rt: HostRuntime) {
    let alloc = rt.alloc();
    let text = b"#\n Parameters = ALL \nDevices=list , modify";
    let Ok(grants) = parse_access(alloc, text) else {
        panic!(rt; "not read");
    };
    assert!(rt; grants.has(Section::Devices, Privilege::List));
    assert!(rt; !grants.has(Section::Devices, Privilege::Listen));
    assert!(rt; is_printed(alloc, &grants));
}

fn add(alloc: Global, acl: &mut Acl, name: &[u8], text: &[u8]) -> Option<()> {
    let who = parse_file_name(name).ok()?;
    acl.add(who, &parse_access(alloc, text).ok()?).ok()
}

fn added(alloc: Global) -> Option<Acl> {
    let mut acl = Acl::new(alloc);
    add(alloc, &mut acl, b"joe", b"Devices=listen")?;
    add(alloc, &mut acl, b"joe", b"Policy=ALL")?;
    acl.add_all(parse_file_name(b":adm").ok()?).ok()?;
    Some(acl)
}

fn allows(acl: &Acl, name: &[u8], section: Section, privilege: Privilege) -> bool {
    match parse_file_name(name) {
        Ok(who) => acl.allows(&who, section, privilege),
        Err(_) => false,
    }
}

#[test]
fn allows_what_was_added(rt: HostRuntime) {
    let acl = added(rt.alloc()).expect(&rt, "memory");
    assert!(rt; allows(&acl, b"joe", Section::Devices, Privilege::Listen));
    assert!(rt; allows(&acl, b"joe", Section::Policy, Privilege::Modify));
    assert!(rt; !allows(&acl, b"joe", Section::Devices, Privilege::Modify));
    assert!(rt; allows(&acl, b":adm", Section::Exceptions, Privilege::Listen));
}

#[test]
fn finds_bad_lines(rt: HostRuntime) {
    match parse_access(rt.alloc(), b"\n Devices = list, ,modify") {
        Ok(_) => panic!(rt; "it was read"),
        Err(fault) => assert!(rt;
            matches!(
                fault,
                FileFault::Bad(TextFault {
                    line: 2,
                    kind: 3,
                    place: 16,
                })
            )
        ),
    }
    assert!(rt; parse_file_name(b"a b").is_err());
}
