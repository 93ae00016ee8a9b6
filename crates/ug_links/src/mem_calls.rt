// The calls of sockets in memory.
ghost use Rattle.std.specs.Prelude.{◌≡◌, [], ◌∷◌, ◌++◌, length, IfOk, OnOk};
ghost use Rattle.ug_links.specs.Steps.{reading_given, FitsRead};
ghost use Rattle.ug_links.specs.MemCalls.{MemGives, told_unless};
ghost use Rattle.ug_links.specs.MemTells.{mem_tells};
ghost use Rattle.ug_links.specs.declared.step.LinkStep.TheVariants.{ReadFrom, WroteTo};

use crate::links::{Accepted, LinkRead, LinkWrote, Links, Listening};
use crate::mem_links::MemLinks;
use crate::step::{LinkStep, Reading};
use crate::waiter::LinkId;
use std::alloc::Global;
use ug_types::{List, NoMemory, Principal, Text};

/// What a read gave, with a copy of its bytes.
fn kept_reading(alloc: Global, answer: LinkRead, buffer: &[u8]) -> Result<Reading, NoMemory>
    requires { FitsRead (length buffer.now) answer }
    ensures { IfOk result (λ reading. reading ≡ reading_given answer buffer.now) }
{
    match answer {
        LinkRead::Took(n) => Ok(Reading::Bytes(Text::of(alloc, &buffer[..n])?)),
        LinkRead::NotYet => Ok(Reading::NotYet),
        LinkRead::End => Ok(Reading::End),
        LinkRead::Failed => Ok(Reading::Failed),
    }
}

fn keep_read(
    alloc: Global,
    calls: &mut List<LinkStep>,
    id: LinkId,
    room: usize,
    answer: LinkRead,
    buffer: &[u8],
) -> Result<(), NoMemory>
    requires { FitsRead (length buffer.now) answer }
    ensures { OnOk result (calls.new ≡ calls.old
        ++ ReadFrom id room (reading_given answer buffer.now) ∷ []) }
{
    let reading = kept_reading(alloc, answer, buffer)?;
    calls.push(LinkStep::ReadFrom(id, room, reading))
}

fn keep_write(
    alloc: Global,
    calls: &mut List<LinkStep>,
    id: LinkId,
    bytes: &[u8],
    answer: LinkWrote,
) -> Result<(), NoMemory>
    ensures { OnOk result (calls.new ≡ calls.old ++ WroteTo id bytes.now answer ∷ []) }
{
    let bytes = Text::of(alloc, bytes)?;
    calls.push(LinkStep::WroteTo(id, bytes, answer))
}

impl Links for MemLinks {
    ghost gives = { MemGives };

    ghost told = { λ s. told_unless s.ran_out s.calls };

    ghost faults = { λ s. s.faults };

    ghost tells = { mem_tells };

    fn listen(&mut self, _alloc: Global, principal: &Principal) -> Listening {
        if self.ran_out {
            self.faults = self.faults.saturating_add(1);
            return Listening::Failed;
        }
        let answer = self.scripts.listen();
        match self.calls.push(LinkStep::Listened(*principal, answer)) {
            Ok(()) => {
                if matches!(answer, Listening::Failed) {
                    self.faults = self.faults.saturating_add(1);
                }
                answer
            }
            Err(NoMemory) => {
                self.ran_out = true;
                self.faults = self.faults.saturating_add(1);
                Listening::Failed
            }
        }
    }

    fn accept(&mut self, _alloc: Global, listener: u32) -> Accepted {
        if self.ran_out {
            self.faults = self.faults.saturating_add(1);
            return Accepted::Failed;
        }
        let answer = match self.scripts.accept(listener) {
            Ok(answer) => answer,
            Err(NoMemory) => {
                self.ran_out = true;
                self.faults = self.faults.saturating_add(1);
                return Accepted::Failed;
            }
        };
        match self.calls.push(LinkStep::AcceptedAt(listener, answer)) {
            Ok(()) => {
                if matches!(answer, Accepted::Failed) {
                    self.faults = self.faults.saturating_add(1);
                }
                answer
            }
            Err(NoMemory) => {
                self.ran_out = true;
                self.faults = self.faults.saturating_add(1);
                Accepted::Failed
            }
        }
    }

    fn read(&mut self, id: LinkId, into: &mut [u8]) -> LinkRead {
        if self.ran_out {
            self.faults = self.faults.saturating_add(1);
            return LinkRead::Failed;
        }
        let room = into.len();
        let answer = self.scripts.read(id, into);
        match keep_read(self.alloc, &mut self.calls, id, room, answer, into) {
            Ok(()) => {
                if matches!(answer, LinkRead::Failed) {
                    self.faults = self.faults.saturating_add(1);
                }
                answer
            }
            Err(NoMemory) => {
                self.ran_out = true;
                self.faults = self.faults.saturating_add(1);
                LinkRead::Failed
            }
        }
    }

    fn write(&mut self, id: LinkId, bytes: &[u8]) -> LinkWrote {
        if self.ran_out {
            self.faults = self.faults.saturating_add(1);
            return LinkWrote::Failed;
        }
        let answer = self.scripts.write(id, bytes);
        match keep_write(self.alloc, &mut self.calls, id, bytes, answer) {
            Ok(()) => {
                if matches!(answer, LinkWrote::Failed) {
                    self.faults = self.faults.saturating_add(1);
                }
                answer
            }
            Err(NoMemory) => {
                self.ran_out = true;
                self.faults = self.faults.saturating_add(1);
                LinkWrote::Failed
            }
        }
    }

    fn close(&mut self, id: LinkId) {
        if self.ran_out {
            return;
        }
        match self.calls.push(LinkStep::Closed(id)) {
            Ok(()) => {}
            Err(NoMemory) => self.ran_out = true,
        }
    }

    fn faults(&self) -> u64 {
        self.faults
    }
}
