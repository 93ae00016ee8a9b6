// Inputs that are read whole.
use std::alloc::Global;
use ug_casefile::{Answer, Case, number_of, say};
use ug_command_io::{InputFault, read_input};
use ug_types::{MemSource, NoMemory, Text};

fn limit(case: &Case) -> Option<usize> {
    usize::try_from(number_of(case.setting(b"most")?)?).ok()
}

/// A source of the input, whose calls of the setting of that key fail.
pub fn source(alloc: Global, case: &Case, key: &[u8]) -> Result<MemSource, NoMemory> {
    let failing = case.numbers(alloc, key)?;
    Ok(MemSource::new(say(alloc, &case.input)?, failing))
}

fn add_read(told: &mut Answer, read: Result<Text, InputFault>) {
    match read {
        Ok(text) => {
            told.add_number(text.bytes().len() as u64);
            told.add(b" bytes");
        }
        Err(InputFault::TooLong) => told.add(b"too long"),
        Err(InputFault::Failed) => told.add(b"failed"),
        Err(InputFault::Memory) => told.fall_short(),
    }
}

/// How many bytes were read, where the call of the setting `failing` fails and at most `most` are wanted.
pub fn tell(alloc: Global, told: &mut Answer, case: &Case) {
    match (limit(case), source(alloc, case, b"failing")) {
        (None, _) => told.add(b"no limit"),
        (Some(_), Err(_)) => told.fall_short(),
        (Some(most), Ok(mut input)) => add_read(told, read_input(alloc, &mut input, most)),
    }
}
