// Access files.
ghost use Rattle.std.specs.Prelude.{◌≡◌, IfOk, IfErr, Some, None};
ghost use Rattle.ug_types.specs.Principals.{principal_of};
ghost use Rattle.ug_types.specs.TextFaults.{IsTextFault};
ghost use Rattle.ug_acl.specs.Faults.{bad_name};
ghost use Rattle.ug_acl.specs.Texts.{access_read};

use crate::draft::{Given, add_line};
use crate::fault::FaultKind;
use crate::grants::Grants;
use std::alloc::Global;
use ug_lines::{LineReader, read_lines};
use ug_types::{FileFault, Numbered, Principal, TextFault};

/// What the lines so far give.
#[derive(Drop)]
struct Granting {
    given: Vec<Given>,
}

impl LineReader for Granting {
    ghost use Rattle.std.specs.Prelude.{List};
    ghost use Rattle.ug_acl.specs.declared.draft.Given.{Given};
    ghost use Rattle.ug_acl.specs.Texts.{granting_line};

    ghost State = { List Given };

    ghost state = { λ g. g.given.items };

    ghost reads = { granting_line };

    ghost keeps = { λ _ _. Unit {0} };

    fn read_line(&mut self, alloc: Global, number: u64, line: &[u8]) -> Result<(), FileFault> {
        match add_line(alloc, &mut self.given, line) {
            Ok(()) => Ok(()),
            Err(fault) => Err(fault.in_line(number)),
        }
    }
}

/// What an access file grants, or its first bad line: usbguard-daemon.conf(5), IPC access control files. A line is empty, a comment
/// that begins with `#`, or `Section=privilege,privilege`, where `ALL` stands for all privileges of the section. Spaces
/// and tabs may surround each part. Each section occurs at most once. A bad line is told by its number, counted
/// from 1, the number of its `FaultKind`, and the place where the bad privilege begins, or would begin, else 0. Where several
/// things are wrong with it, the first of `NoEquals`, `UnknownSection`, `Repeated` and `BadPrivilege` is told. The last line may
/// lack its newline. Linear in the number of bytes.
pub fn parse_access(alloc: Global, text: &[u8]) -> Result<Grants, FileFault>
    ensures good { IfOk result (λ grants. access_read text.now ≡ Ok grants) }
    ensures bad { IfErr result (λ fault. IsTextFault fault (access_read text.now)) }
{
    let mut granting = Granting {
        given: Vec::new(alloc),
    };
    match read_lines(alloc, &mut granting, text) {
        Ok(()) => Ok(Grants::of_lines(granting.given.as_slice())),
        Err(fault) => Err(fault),
    }
}

/// The user or the group whose access file has that name; else a fault in line 0, of `BadName`. It takes no memory.
pub fn parse_file_name(name: &[u8]) -> Result<Principal, FileFault>
    ensures named { IfOk result (λ who. principal_of name.now ≡ Some who) }
    ensures bad { IfErr result (λ fault. (principal_of name.now ≡ None) × (fault ≡ bad_name)) }
{
    match Principal::parse(name) {
        Some(who) => Ok(who),
        None => Err(FileFault::Bad(TextFault {
            line: 0,
            kind: FaultKind::BadName.number(),
            place: 0,
        })),
    }
}
