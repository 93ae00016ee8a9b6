// A file that is read while signals come.
use std::alloc::{Allocator, Global};
use std::fs::{Metadata, OpenFile, OpenOptions};
use std::io;
use std::io::{ErrorKind, Read, Seek, SeekFrom, Write};
use std::rt::Files;
use ug_conf::{ConfFiles, FileRead};
use ug_host::ConfFolder;

/// A file that answers EINTR so many times, and then has one byte.
#[derive(Drop)]
struct Busy {
    times: u32,
    read: bool,
}

fn refuse<T>() -> io::Result<T> {
    Err(io::Error::from(ErrorKind::Unsupported))
}

impl Read for Busy {
    fn read(&mut self, buf: &mut [u8]) -> io::Result<usize> {
        if self.times > 0 {
            self.times -= 1;
            return Err(io::Error::from(ErrorKind::Interrupted));
        }
        if self.read || buf.is_empty() {
            return Ok(0);
        }
        self.read = true;
        buf[0] = b'1';
        Ok(1)
    }
}

impl Write for Busy {
    fn write(&mut self, _buf: &[u8]) -> io::Result<usize> {
        Err(io::Error::from(ErrorKind::Unsupported))
    }

    fn flush(&mut self) -> io::Result<()> {
        refuse()
    }
}

impl Seek for Busy {
    fn seek(&mut self, _to: SeekFrom) -> io::Result<u64> {
        refuse()
    }
}

impl OpenFile for Busy {
    fn metadata(&self) -> io::Result<Metadata> {
        Ok(Metadata::of_file(1))
    }

    fn set_len(&self, _size: u64) -> io::Result<()> {
        refuse()
    }

    fn sync_all(&self) -> io::Result<()> {
        refuse()
    }

    fn sync_data(&self) -> io::Result<()> {
        refuse()
    }
}

/// A system each of whose files is such a one, and root's.
#[derive(Clone, Copy, Drop)]
struct BusyFiles {}

impl Files for BusyFiles {
    type File = Busy;

    type Dir = Busy;

    fn open_file(&self, _how: &OpenOptions, _path: &str) -> io::Result<Busy> {
        Ok(Busy {
            times: 3,
            read: false,
        })
    }

    fn open_dir(&self, _path: &str) -> io::Result<Busy> {
        refuse()
    }

    fn metadata(&self, _path: &str) -> io::Result<Metadata> {
        Ok(Metadata::of_file(1))
    }

    fn symlink_metadata(&self, _path: &str) -> io::Result<Metadata> {
        Ok(Metadata::of_file(1))
    }

    fn copy(&self, _from: &str, _to: &str) -> io::Result<u64> {
        refuse()
    }

    fn rename(&self, _from: &str, _to: &str) -> io::Result<()> {
        refuse()
    }

    fn remove_file(&self, _path: &str) -> io::Result<()> {
        refuse()
    }

    fn create_dir(&self, _path: &str) -> io::Result<()> {
        refuse()
    }

    fn remove_dir(&self, _path: &str) -> io::Result<()> {
        refuse()
    }

    fn remove_dir_all<B: Allocator>(&self, _alloc: B, _path: &str) -> io::Result<()> {
        refuse()
    }
}

// Whether its one byte is read.
fn is_read(alloc: Global) -> bool {
    let mut files = ConfFolder::new((BusyFiles {}, alloc));
    let read = files.read_file(alloc, b"/etc/usbguard/usbguard-daemon.conf");
    matches!(read, FileRead::Bytes(text) if text.bytes() == b"1".as_slice())
}

#[test]
fn an_interrupted_reading_is_made_again(rt: HostRuntime) {
    assert!(rt; is_read(rt.alloc()));
}
