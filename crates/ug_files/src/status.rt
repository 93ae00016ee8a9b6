// What a call of the C library answers.
use std::io;

/// The error of the call that has just answered that status, if it failed.
pub fn check_status(status: i32) -> io::Result<()> {
    if status < 0 {
        Err(io::Error::from_raw_os_error(os::errno()))
    } else {
        Ok(())
    }
}
