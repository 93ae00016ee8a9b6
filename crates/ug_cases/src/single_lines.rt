// The lines of a script, handed to a runner one by one.
use std::alloc::Global;
use ug_casefile::{Answer, Case};
use ug_command_io::Ran;
use ug_script::Runner;
use ug_sysfs::SimKernel;
use ug_types::MemSink;

fn word_of(ran: Ran) -> &'static str {
    match ran {
        Ran::Done => "done",
        Ran::Bad => "bad",
        Ran::TooLong => "too long",
        Ran::SinkFailed => "sink failed",
        Ran::Memory => "no memory",
    }
}

fn add_answer(told: &mut Answer, number: u64, ran: Ran) {
    told.add(b"line ");
    told.add_number(number);
    told.add(b" ");
    told.add(word_of(ran).as_bytes());
    told.add(b"\n");
}

// The lines of the input, without the end of the last; None where there is no line.
fn text_given(case: &Case) -> Option<&[u8]> {
    let text = case.input.as_slice();
    if text.is_empty() {
        return None;
    }
    Some(text.strip_suffix(b"\n").unwrap_or(text))
}

// What a line came to, of a runner that plays it, or one that makes rules of the devices.
fn step(
    runner: &mut Runner,
    kernel: &mut SimKernel,
    line: &[u8],
    out: &mut MemSink,
    policy: bool,
) -> Ran {
    if policy {
        runner.generate_step(kernel, line)
    } else {
        runner.step(kernel, line, out)
    }
}

fn finish(runner: &mut Runner, kernel: &SimKernel, out: &mut MemSink, policy: bool) -> Ran {
    if policy {
        runner.generate_finish(kernel, out)
    } else {
        runner.finish(out)
    }
}

// Hands the lines over, and adds those that aren't done.
fn add_steps(
    answers: &mut Answer,
    runner: &mut Runner,
    kernel: &mut SimKernel,
    text: &[u8],
    out: &mut MemSink,
    policy: bool,
) {
    let mut number: u64 = 0;
    for line in text.split(|byte| *byte == b'\n') {
        number = number.saturating_add(1);
        let ran = step(runner, kernel, line, out, policy);
        if !matches!(ran, Ran::Done) {
            add_answer(answers, number, ran);
        }
    }
}

fn add_run(alloc: Global, told: &mut Answer, case: &Case, mut out: MemSink, policy: bool) {
    let mut kernel = SimKernel::new(alloc);
    let mut runner = Runner::new(alloc);
    let mut answers = Answer::new(alloc);
    if let Some(text) = text_given(case) {
        add_steps(
            &mut answers,
            &mut runner,
            &mut kernel,
            text,
            &mut out,
            policy,
        );
    }
    let end = finish(&mut runner, &kernel, &mut out, policy);
    told.add(out.bytes());
    told.add_answer(&answers);
    told.add(b"end ");
    told.add(word_of(end).as_bytes());
}

/// What the lines write, which of them aren't done, and how the finish ends. With `policy` the runner makes rules of the devices.
pub fn tell(alloc: Global, told: &mut Answer, case: &Case, policy: bool) {
    match case.numbers(alloc, b"writes") {
        Ok(writes) => add_run(alloc, told, case, MemSink::new(alloc, writes), policy),
        Err(_) => told.fall_short(),
    }
}
