// Requests, replies and the lines of streams.
use std::alloc::Global;
use ug_casefile::{Answer, Case, number_of};
use ug_proto::{
    FrameFault, Framer, Reply, ReplyFault, Request, RequestFault, parse_reply, parse_request,
    print_reply, print_request,
};

fn add_request(alloc: Global, told: &mut Answer, request: &Request) {
    for (section, privilege) in request.needs() {
        told.add(section.word());
        told.add(b" ");
        told.add(privilege.word());
        told.add(b", ");
    }
    told.add_text(print_request(alloc, request));
}

/// The privileges that a line needs and its text as it is printed, or the place where it is bad.
pub fn tell_line(alloc: Global, told: &mut Answer, line: &[u8]) {
    match parse_request(alloc, line) {
        Ok(request) => add_request(alloc, told, &request),
        Err(RequestFault::Bad(place)) => {
            told.add(b"bad ");
            told.add_number(place);
        }
        Err(RequestFault::Memory) => told.fall_short(),
    }
}

fn add_reply(alloc: Global, told: &mut Answer, reply: &Reply, length: usize) {
    told.add_number(length as u64);
    told.add(b" ");
    match print_reply(alloc, reply) {
        Ok(text) => told.add(text.bytes().strip_suffix(b"\n").unwrap_or(text.bytes())),
        Err(_) => told.fall_short(),
    }
}

/// How many bytes a reply has and its text as it is printed; `begun` or `bad` where there is none.
pub fn tell_text(alloc: Global, told: &mut Answer, text: &[u8]) {
    match parse_reply(alloc, text) {
        Ok(Some((reply, length))) => add_reply(alloc, told, &reply, length),
        Ok(None) => told.add(b"begun"),
        Err(ReplyFault::BadReply) => told.add(b"bad"),
        Err(ReplyFault::Memory) => told.fall_short(),
    }
}

// What a front of requests or of replies is told as.
fn tell_front(alloc: Global, front: &[u8], of_replies: bool) -> Answer {
    let mut told = Answer::new(alloc);
    if of_replies {
        tell_text(alloc, &mut told, front);
    } else {
        tell_line(alloc, &mut told, front);
    }
    told
}

fn add_front(told: &mut Answer, length: usize, front: &Answer) {
    if length > 0 {
        told.add(b", ");
    }
    told.add_number(length as u64);
    told.add(b": ");
    told.add_answer(front);
}

/// What each front of a text is told as, where it differs from the shorter ones.
pub fn tell_fronts(alloc: Global, told: &mut Answer, text: &[u8], of_replies: bool) {
    let mut last = Answer::new(alloc);
    for length in 0..text.len() + 1 {
        let now = tell_front(alloc, &text[..length], of_replies);
        if now.text() != last.text() {
            add_front(told, length, &now);
        }
        last = now;
    }
}

// None where memory was short.
fn mark(framer: &mut Framer, piece: &[u8]) -> Option<u8> {
    match framer.feed(piece) {
        Ok(()) => Some(b'.'),
        Err(FrameFault::TooLong) => Some(b'!'),
        Err(FrameFault::Memory) => None,
    }
}

// The lengths of the next lines, at most that many, each with a space in front.
fn add_lengths(told: &mut Answer, framer: &mut Framer, most: usize) {
    for _ in 0..most {
        match framer.next_line() {
            Some(line) => {
                told.add(b" ");
                told.add_number(line.bytes().len() as u64);
            }
            None => return,
        }
    }
}

fn size_given(case: &Case) -> usize {
    let size = case.setting(b"piece").and_then(number_of).unwrap_or(1);
    usize::try_from(size).unwrap_or(1)
}

// Takes the stream, and adds the marks of pieces one behind another that have the same only once.
fn add_marks(told: &mut Answer, framer: &mut Framer, case: &Case) {
    let mut last = 0;
    let size = size_given(case).max(1);
    for piece in case.input.chunks(size) {
        match mark(framer, piece) {
            Some(now) => {
                if now != last {
                    told.add(&[now]);
                }
                last = now;
            }
            None => told.fall_short(),
        }
    }
}

/// The lengths of the lines of a stream that comes in pieces of the size of the setting `piece`. In front
/// stands a point for pieces that were taken, and an exclamation mark for pieces that were not.
pub fn tell_stream(alloc: Global, told: &mut Answer, case: &Case) {
    let mut framer = Framer::new(alloc);
    add_marks(told, &mut framer, case);
    add_lengths(told, &mut framer, case.input.len());
}
