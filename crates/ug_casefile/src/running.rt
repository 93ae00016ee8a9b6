// Cases from a source, and their report to a sink.
use crate::answer::Answer;
use crate::cases::Case;
use crate::reading::read_cases;
use crate::report::Report;
use std::alloc::Global;
use ug_command_io::{InputFault, read_input};
use ug_types::{NoMemory, Put, Sink, Source, TEXT_LIMIT};

/// What gives the answer to a case.
pub trait Teller {
    /// Adds it to an empty one.
    fn tell(&self, alloc: Global, case: &Case, told: &mut Answer);
}

fn tell<T: Teller>(alloc: Global, case: &Case, teller: &T) -> Result<Vec<u8>, NoMemory> {
    let mut told = Answer::new(alloc);
    teller.tell(alloc, case, &mut told);
    told.finish()
}

fn report<T: Teller>(alloc: Global, text: &[u8], teller: &T) -> Result<Vec<u8>, NoMemory> {
    let file = read_cases(alloc, text)?;
    let mut report = Report::new(alloc);
    for line in file.bad_lines.as_slice() {
        report.add_bad_line(*line);
    }
    for case in file.cases.as_slice() {
        let told = tell(alloc, case, teller)?;
        report.add(case, &told);
    }
    report.finish()
}

fn put<K: Sink>(out: &mut K, text: &[u8], status: u8) -> u8 {
    match out.put(text) {
        Put::Done => status,
        Put::Failed => 5,
    }
}

/// Reads cases and writes their report. The status is 0, whatever it says; 4 where the input failed or is too long, 5 for
/// a write fault, 6 for want of memory.
pub fn run_cases<S: Source, K: Sink, T: Teller>(
    alloc: Global,
    input: &mut S,
    out: &mut K,
    teller: &T,
) -> u8 {
    match read_input(alloc, input, TEXT_LIMIT) {
        Ok(text) => match report(alloc, text.bytes(), teller) {
            Ok(lines) => put(out, &lines, 0),
            Err(_) => put(out, b"no memory\n", 6),
        },
        Err(InputFault::Memory) => put(out, b"no memory\n", 6),
        Err(_) => put(out, b"read fault\n", 4),
    }
}
