// Standard input, output and error where they are closed.
use libc::{EBADF, O_RDONLY, O_WRONLY};

fn is_closed(number: i32) -> bool {
    let copy = os::duplicate(number);
    if copy >= 0 {
        libc::close(copy);
        return false;
    }
    os::errno() == EBADF
}

/// Opens each of the three that is closed, in a way in which it can't be used: input can't be read, output and error can't be written.
/// Else the next file that is opened would take its number. It has to be called before any file is opened.
pub fn fill_standard_files() {
    for number in 0..3i32 {
        if is_closed(number) {
            let flags = if number == 0 { O_WRONLY } else { O_RDONLY };
            let _opened = os::open_with(b"/dev/null", flags, 0);
        }
    }
}
