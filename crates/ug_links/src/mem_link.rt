// A connection in memory, some of whose calls fail.
ghost use Rattle.std.specs.Prelude.{◌≡◌, ◌↔◌, ℕ, ◌<◌, List, [], Some, IsTrue, false, drop, length, IfOk};
ghost use Rattle.std.specs.Io.KnownBytes.{Keeps};
ghost use Rattle.ug_types.specs.Ends.{Fits, Takes, Puts, IsCounted, Rose};
ghost use Rattle.ug_types.specs.Failing.{TakesUnlessListed, PutsUnlessListed};
ghost use Rattle.ug_links.specs.LinkCalls.{TellsCall, calls_unless, receipt_of};
ghost use Rattle.ug_links.specs.declared.link_call.LinkCall.{LinkCall};
ghost use Rattle.ug_links.specs.declared.link_call.LinkCall.TheVariants as call;

use crate::link::{Dialled, Link};
use crate::link_call::{LinkCall, Receipt};
use std::alloc::Global;
use ug_types::{List, MemSink, MemSource, NoMemory, Put, Sink, Source, Taken, Text};

/// Whether its dialling succeeds, the bytes that come, those that were sent, and the calls so far. A receiving fails where its
/// source does, and a sending where its sink does. Where memory is short for a call, it tells none from then on.
#[derive(Drop)]
pub struct MemLink {
    alloc: Global,
    reachable: bool,
    coming: MemSource,
    going: MemSink,
    calls: List<LinkCall>,
    untold: bool,
    faults: u64,
}

fn dial_call(alloc: Global, path: &[u8], dialled: Dialled) -> Result<LinkCall, NoMemory>
    ensures { IfOk result (λ made. made ≡ call.Dial path.now dialled) }
{
    Ok(LinkCall::Dial(Text::of(alloc, path)?, dialled))
}

fn send_call(alloc: Global, bytes: &[u8], put: Put) -> Result<LinkCall, NoMemory>
    ensures { IfOk result (λ made. made ≡ call.Send bytes.now put) }
{
    Ok(LinkCall::Send(Text::of(alloc, bytes)?, put))
}

/// A receive, with a copy of the bytes that it gave.
fn receive_call(alloc: Global, taken: Taken, buffer: &[u8]) -> Result<LinkCall, NoMemory>
    requires { Fits (length buffer.now) taken }
    ensures { IfOk result (λ made. made ≡ call.Receive (receipt_of taken buffer.now)) }
{
    let receipt = match taken {
        Taken::Bytes(n) => Receipt::Bytes(Text::of(alloc, &buffer[..n])?),
        Taken::End => Receipt::End,
        Taken::Failed => Receipt::Failed,
    };
    Ok(LinkCall::Receive(receipt))
}

/// Keeps a call behind those so far, while calls are told. Where memory is short for it they are told no longer.
fn keep(calls: &mut List<LinkCall>, untold: &mut bool, call: Result<LinkCall, NoMemory>)
    ensures { (kept : LinkCall) → IfOk call (λ c. c ≡ kept)
        → TellsCall (calls_unless untold.old calls.old) kept (calls_unless untold.new calls.new) }
{
    if *untold {
        return;
    }
    match call {
        Ok(call) => {
            if calls.push(call).is_err() {
                *untold = true;
            }
        }
        Err(NoMemory) => *untold = true,
    }
}

impl MemLink {
    /// It takes no memory.
    pub fn new(alloc: Global, reachable: bool, coming: MemSource, going: MemSink) -> MemLink
        ensures reachable { result.reachable ≡ reachable }
        ensures coming { result.coming ≡ coming }
        ensures going { result.going ≡ going }
        ensures calls { result.calls ≡ [] }
        ensures untold { result.untold ≡ false }
        ensures faults { result.faults ≡ 0 }
    {
        MemLink {
            alloc,
            reachable,
            coming,
            going,
            calls: List::new(alloc),
            untold: false,
            faults: 0,
        }
    }

    /// What was sent.
    pub fn sent(&self) -> &[u8]
        ensures { result.now ≡ self.now.going.bytes.items }
    {
        self.going.bytes()
    }

    /// The calls so far, in order. They are all of them unless memory was short for one.
    pub fn calls(&self) -> &[LinkCall]
        ensures { result.now ≡ self.now.calls }
    {
        self.calls.as_slice()
    }
}

impl Link for MemLink {
    ghost told = { λ s. calls_unless s.untold s.calls };

    ghost sent = { λ s. Some s.going.bytes.items };

    ghost left = { λ s. Some (drop s.coming.at s.coming.bytes.items) };

    ghost faults = { λ s. s.faults };

    fn dial(&mut self, _alloc: Global, path: &[u8]) -> Dialled
        ensures told { TellsCall (calls_unless self.old.untold self.old.calls)
            (call.Dial path.now result) (calls_unless self.new.untold self.new.calls) }
        ensures sent { self.new.going ≡ self.old.going }
        ensures left { self.new.coming ≡ self.old.coming }
        ensures counted { IsCounted self.old.faults self.new.faults }
        ensures cause { result ≡ Dialled.Failed → Rose self.old.faults self.new.faults }
        ensures fails { (result ≡ Dialled.Ready) ↔ IsTrue self.old.reachable }
        ensures others { (result ≡ Dialled.Failed) ↔ ¬ IsTrue self.old.reachable }
    {
        if self.reachable {
            let call = dial_call(self.alloc, path, Dialled::Ready);
            keep(&mut self.calls, &mut self.untold, call);
            return Dialled::Ready;
        }
        let call = dial_call(self.alloc, path, Dialled::Failed);
        keep(&mut self.calls, &mut self.untold, call);
        self.faults = self.faults.saturating_add(1);
        Dialled::Failed
    }

    fn send(&mut self, bytes: &[u8]) -> Put
        ensures told { TellsCall (calls_unless self.old.untold self.old.calls)
            (call.Send bytes.now result) (calls_unless self.new.untold self.new.calls) }
        ensures sent { Puts (Some self.old.going.bytes.items)
            (Some self.new.going.bytes.items) bytes.now result }
        ensures left { self.new.coming ≡ self.old.coming }
        ensures counted { IsCounted self.old.faults self.new.faults }
        ensures cause { result ≡ Put.Failed → Rose self.old.faults self.new.faults }
        ensures fails { PutsUnlessListed self.old.going.failing.items self.old.going.calls
            self.new.going.short result }
    {
        let put = self.going.put(bytes);
        let call = send_call(self.alloc, bytes, put);
        keep(&mut self.calls, &mut self.untold, call);
        if put == Put::Failed {
            self.faults = self.faults.saturating_add(1);
        }
        put
    }

    fn receive(&mut self, into: &mut [u8]) -> Taken
        requires { 0 < length into.old }
        ensures told { TellsCall (calls_unless self.old.untold self.old.calls)
            (call.Receive (receipt_of result into.new))
            (calls_unless self.new.untold self.new.calls) }
        ensures size { Fits (length into.old) result }
        ensures bytes { Takes (Some (drop self.old.coming.at self.old.coming.bytes.items))
            (Some (drop self.new.coming.at self.new.coming.bytes.items)) into.new result }
        ensures sent { self.new.going ≡ self.old.going }
        ensures counted { IsCounted self.old.faults self.new.faults }
        ensures cause { result ≡ Taken.Failed → Rose self.old.faults self.new.faults }
        ensures fails { TakesUnlessListed self.old.coming.failing.items self.old.coming.calls
            result }
    {
        let taken = self.coming.take(into);
        let call = receive_call(self.alloc, taken, into);
        keep(&mut self.calls, &mut self.untold, call);
        if matches!(taken, Taken::Failed) {
            self.faults = self.faults.saturating_add(1);
        }
        taken
    }

    fn faults(&self) -> u64 {
        self.faults
    }
}
