// The lines of an input, each taken by a machine.
use crate::echo::Echo;
use crate::inputs::source;
use std::alloc::Global;
use ug_casefile::{Answer, Case};
use ug_command_io::run;
use ug_types::{MemSink, NoMemory};

#[derive(Drop)]
struct Ended {
    status: u8,
    world: u64,
    out: MemSink,
}

fn end(alloc: Global, case: &Case) -> Result<Ended, NoMemory> {
    let writes = case.numbers(alloc, b"writes")?;
    let mut input = source(alloc, case, b"reads")?;
    let mut out = MemSink::new(alloc, writes);
    let mut machine = Echo { begun: false };
    let mut world = 9;
    let status = run(alloc, &mut input, &mut out, &mut machine, &mut world);
    Ok(Ended { status, world, out })
}

fn add_end(told: &mut Answer, ended: &Ended) {
    told.add(b", status ");
    told.add_number(u64::from(ended.status));
    told.add(b", world ");
    told.add_number(ended.world);
}

/// What was written, the status, and the world at the end, which is 9 at the beginning.
pub fn tell(alloc: Global, told: &mut Answer, case: &Case) {
    match end(alloc, case) {
        Ok(ended) => {
            told.add_quoted(ended.out.bytes());
            add_end(told, &ended);
        }
        Err(_) => told.fall_short(),
    }
}

/// The same with the length alone of what was written.
pub fn tell_length(alloc: Global, told: &mut Answer, case: &Case) {
    match end(alloc, case) {
        Ok(ended) => {
            told.add_number(ended.out.bytes().len() as u64);
            told.add(b" bytes");
            add_end(told, &ended);
        }
        Err(_) => told.fall_short(),
    }
}
