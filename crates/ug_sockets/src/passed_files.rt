// Descriptors that a peer sends along: unix(7), SCM_RIGHTS.
ghost use Rattle.std.specs.Prelude.{◌≡◌, ◌≤◌, length, IfOk};

use libc::net::{MSG_DONTWAIT, MSG_PEEK, recv};
use std::alloc::Global;
use std::io::{self, Read};
use std::rt::Files;
use std::{fs, str};
use ug_files::read_piece;

/// The line of a socket's information that counts the descriptors in its queue: Linux 5.6 has it.
const COUNT: &str = "scm_fds:";

/// Copies a front of what waits at a socket, and leaves it there. No descriptor that came along is received by that, or closed.
pub fn peek(socket: i32, into: &mut [u8]) -> io::Result<usize>
    ensures bound { IfOk result (λ n. n ≤ length into.old) }
    ensures length { length into.new ≡ length into.old }
{
    let copied = unsafe { recv(socket, into, MSG_PEEK | MSG_DONTWAIT) };
    if copied < 0 {
        Err(io::Error::from_raw_os_error(os::errno()))
    } else {
        Ok((copied as usize).min(into.len()))
    }
}

fn first_line(text: &str) -> &str {
    match text.split_once('\n') {
        Some((line, _)) => line,
        None => text,
    }
}

// The number behind the word, in the line that begins with it.
fn count_in(text: &str) -> Option<u64> {
    match text.split_once(COUNT) {
        Some((_, behind)) => first_line(behind).trim().parse::<u64>().ok(),
        None => None,
    }
}

// The path of what the kernel tells of a socket.
fn path_of(alloc: Global, socket: i32) -> Option<String> {
    format!(in alloc; "/proc/self/fdinfo/{socket}").ok()
}

// The number that a front of a file tells.
fn read_count<F: Read>(file: &mut F) -> Option<u64> {
    let mut piece = [0u8; 1024];
    match read_piece(file, &mut piece) {
        Ok(count) => count_in(str::from_utf8(&piece[..count]).ok()?),
        Err(_) => None,
    }
}

// The same of the file at a path.
fn count_at<R: Files>(rt: &R, path: &str) -> Option<u64> {
    match fs::open(rt, path) {
        Ok(mut file) => read_count(&mut file),
        Err(_) => None,
    }
}

/// Whether no descriptor waits in a socket's queue, as far as the kernel tells. Closing such a socket, or taking what had come to it,
/// waits for nobody.
pub fn has_none<R: Files>(rt: &R, alloc: Global, socket: i32) -> bool {
    match path_of(alloc, socket) {
        Some(path) => count_at(rt, path.as_str()) == Some(0),
        None => false,
    }
}
