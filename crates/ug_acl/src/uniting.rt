// An access text with what is asked for.
ghost use Rattle.std.specs.Prelude.{◌≡◌, Ok, IfOk, IfErr};
ghost use Rattle.ug_types.specs.TextFaults.{IsTextFault};
ghost use Rattle.ug_acl.specs.Texts.{access_read};
ghost use Rattle.ug_acl.specs.Adding.{IsUnited};

use crate::asked::Asked;
use crate::parse_access;
use crate::united_text::print_united;
use std::alloc::Global;
use ug_types::{FileFault, Line};

/// The text of an access file with what another one grants and what is asked for; or the other's first bad line.
pub fn unite(alloc: Global, asked: &Asked, text: &[u8]) -> Result<Line, FileFault>
    ensures good { IfOk result (λ line. IsUnited asked.now text.now line) }
    ensures bad { IfErr result (λ fault. IsTextFault fault (access_read text.now)) }
{
    match parse_access(alloc, text) {
        Ok(granted) => Ok(print_united(&granted, asked)),
        Err(fault) => Err(fault),
    }
}
