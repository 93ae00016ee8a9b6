// The request's line.
ghost use Rattle.std.specs.Prelude.{◌≡◌, ◌≤◌, IfOk};
ghost use Rattle.std.specs.Io.KnownBytes.{Keeps};
ghost use Rattle.ug_types.specs.Ends.{Rose};
ghost use Rattle.ug_client.specs.Asking.{request_line, SendsCalls, SendsLine};

use std::alloc::Global;
use ug_links::{Dialled, Link};
use ug_proto::{Request, print_request};
use ug_types::{NoMemory, Put};

/// How a sending ended.
#[derive(Clone, Copy)]
pub enum Sent {
    Done,
    Failed,
    Memory,
}

fn print_line(alloc: Global, request: &Request) -> Result<Vec<u8>, NoMemory>
    ensures { IfOk result (λ line. line.items ≡ request_line request.now) }
{
    let mut line = print_request(alloc, request)?.into_vec();
    line.push(b'\n')?;
    Ok(line)
}

/// Connects to the socket of that path, and sends the request's line.
pub fn send_request<L: Link>(alloc: Global, link: &mut L, path: &[u8], request: &Request) -> Sent
    ensures made { SendsCalls path.now (request_line request.now) (L.told link.old)
        (L.told link.new) result }
    ensures sent { SendsLine (L.sent link.old) (L.sent link.new) (request_line request.now) result }
    ensures left { Keeps (L.left link.old) (L.left link.new) }
    ensures counted { L.faults link.old ≤ L.faults link.new }
    ensures cause { result ≡ Sent.Failed → Rose (L.faults link.old) (L.faults link.new) }
{
    let line = match print_line(alloc, request) {
        Ok(line) => line,
        Err(_) => return Sent::Memory,
    };
    match link.dial(alloc, path) {
        Dialled::Ready => match link.send(&line) {
            Put::Done => Sent::Done,
            Put::Failed => Sent::Failed,
        },
        Dialled::Failed => Sent::Failed,
        Dialled::Memory => Sent::Memory,
    }
}
