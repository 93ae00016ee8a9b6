// Listening at a socket's file.
use mio::net::{UnixListener, UnixStream};
use std::fs::{self, DirBuilder};
use std::io::{self, ErrorKind};
use std::net::Net;
use std::os::fd::{AsFd, AsRawFd, OwnedFd};
use std::os::unix::fs::{DirBuilderExt, FileTypeExt};
use std::os::unix::net::{self, SocketAddr};
use std::rt::Files;
use ug_files::check_status;

/// A socket's mode as it is made: nobody but its owner may connect.
const SOCKET_MODE: u32 = 0o600;

/// The mode of a folder that is made.
const FOLDER_MODE: u32 = 0o700;

/// So many connections may wait to be accepted.
const WAITING: i32 = 128;

/// Makes a folder for sockets, if none is there.
pub fn make_folder<R: Files>(rt: &R, folder: &str) -> io::Result<()> {
    match DirBuilder::new().mode(FOLDER_MODE).create(rt, folder) {
        Err(e) if e.kind() == ErrorKind::AlreadyExists => Ok(()),
        made => made,
    }
}

// Removes a socket that a dead program left. Any other file stays.
fn remove_left<R: Files>(rt: &R, path: &str) -> io::Result<()> {
    if fs::symlink_metadata(rt, path)?.file_type().is_socket() {
        fs::remove_file(rt, path)
    } else {
        Err(io::Error::from(ErrorKind::AlreadyExists))
    }
}

// Makes a path free, unless a living program listens there. A listener whose queue is full lives too.
fn make_free<R: Files + Net>(rt: &R, path: &str) -> io::Result<()> {
    match UnixStream::connect(rt, path) {
        Ok(_) => Err(io::Error::from(ErrorKind::AddrInUse)),
        Err(e) => match e.kind() {
            ErrorKind::NotFound => Ok(()),
            ErrorKind::ConnectionRefused => remove_left(rt, path),
            ErrorKind::WouldBlock => Err(io::Error::from(ErrorKind::AddrInUse)),
            _ => Err(e),
        },
    }
}

// The mode is the socket's before it has a name, so its file has that mode from the first.
fn put_at<R: Files + Net>(rt: &R, socket: &OwnedFd, path: &str) -> io::Result<()> {
    check_status(libc::fchmod(socket.as_raw_fd(), SOCKET_MODE))?;
    rt.bind_unix(socket.as_fd(), &SocketAddr::from_pathname(path)?)?;
    check_status(libc::net::listen(socket.as_raw_fd(), WAITING))
}

fn listener_of(socket: OwnedFd) -> io::Result<UnixListener> {
    let listener = net::UnixListener::from(socket);
    listener.set_nonblocking(true)?;
    Ok(UnixListener::from_std(listener))
}

fn bind<R: Files + Net>(rt: &R, path: &str) -> io::Result<UnixListener> {
    let socket = rt.unix_socket()?;
    put_at(rt, &socket, path)?;
    listener_of(socket)
}

/// Listens at a path, at which nobody else listens.
pub fn listen_at<R: Files + Net>(rt: &R, path: &str) -> io::Result<UnixListener> {
    make_free(rt, path)?;
    bind(rt, path)
}
