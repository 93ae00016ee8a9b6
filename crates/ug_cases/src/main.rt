// Cases: reads them, and tells those whose answers differ.
#![tactic(auto)]

mod calls;
mod commands;
mod control;
mod disks;
mod each_byte;
mod each_call;
mod echo;
mod entries;
mod inputs;
mod kinds;
mod machines;
mod names;
mod policies;
mod principals;
mod records;
mod rules;
mod session;
mod settings;
mod single_lines;
mod tokens;
mod zones;

use std::alloc::Global;
use std::io;
use std::process::ExitCode;
use ug_casefile::{Answer, Case, Teller, run_cases};
use ug_types::{ReaderSource, WriterSink};

struct Cases;

impl Teller for Cases {
    fn tell(&self, alloc: Global, case: &Case, told: &mut Answer) {
        kinds::tell(alloc, told, case);
    }
}

fn main(rt: HostRuntime) -> ExitCode {
    let mut input = ReaderSource::new(rt.reader());
    let mut out = WriterSink::new(io::writer(&rt));
    ExitCode::from(run_cases(rt.alloc(), &mut input, &mut out, &Cases))
}
