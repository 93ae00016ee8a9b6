// The devices of a folder, and the controls that are held open.
ghost use Rattle.ug_kernel.specs.Few.{HasFew, AreDistinct};

use crate::first_byte::{read_first, write_byte};
use crate::listing_told::ListingTold;
use crate::names::list_devices;
use crate::port::read_connect_type;
use std::alloc::Global;
use std::collections::BTreeMap;
use std::fs;
use std::rt::Files;
use ug_files::{Content, FileFault, folder_of, open_to_write, read_file, read_number, word_of};
use ug_kernel::{Attr, Control, Held, Listing, Opened, Probe, ReadOut, Write, Wrote};
use ug_types::NodeName;

/// A control of a device that is held open, and the file that tells the device's number on its bus.
#[derive(Drop)]
struct OpenControl<F> {
    file: F,
    devnum_path: String,
    devnum: u32,
}

/// The folder, and its open controls by their numbers, of which none is given out twice.
#[derive(Drop)]
pub struct Folder<R: Files> {
    rt: R,
    root: String,
    open: BTreeMap<u64, OpenControl<R::File>>,
    next: u64,
    told: ListingTold,
}

impl<R: Files + AllocGlobal + Clone + Drop> Folder<R> {
    pub fn new(rt: R, alloc: Global, root: String) -> Folder<R> {
        Folder {
            rt,
            root,
            open: BTreeMap::new(alloc),
            next: 0,
            told: ListingTold::new(alloc),
        }
    }

    // The path of a file of the device that bears the name.
    fn path_of(&self, alloc: Global, name: &NodeName, file: &str) -> Result<String, FileFault> {
        let word = word_of(name)?;
        Ok([self.root.as_str(), word, file].join(alloc, "/")?)
    }

    // Opens the file of a control.
    fn open_file(
        &self,
        alloc: Global,
        name: &NodeName,
        control: Control,
    ) -> Result<R::File, FileFault> {
        let (word, read) = match control {
            Control::Authorized => ("authorized", true),
            Control::Remove => ("remove", false),
            Control::Default => ("authorized_default", true),
        };
        let path = self.path_of(alloc, name, word)?;
        open_to_write(&self.rt, path.as_str(), read)
    }

    // Opens a control, and behind it takes the number of the device that bears the name, of which that is the path. That is the number
    // of the control's device, or this one has gone by then; where none bears the name any more, none lived through.
    fn open_numbered(
        &self,
        alloc: Global,
        name: &NodeName,
        control: Control,
        devnum_path: String,
    ) -> Result<OpenControl<R::File>, FileFault> {
        let file = self.open_file(alloc, name, control)?;
        let devnum = read_number(&self.rt, devnum_path.as_str())?;
        Ok(OpenControl {
            file,
            devnum_path,
            devnum,
        })
    }

    // The same. Where a file is missing though its device's folder stands, it is looked for once
    // more: then the device is coming or going, or the call failed.
    fn open(
        &self,
        alloc: Global,
        name: &NodeName,
        control: Control,
    ) -> Result<OpenControl<R::File>, FileFault> {
        match self.open_once(alloc, name, control) {
            Err(FileFault::Missing) if self.has_folder(alloc, name)? => {}
            opened => return opened,
        }
        match self.open_once(alloc, name, control) {
            Err(FileFault::Missing) if self.has_folder(alloc, name)? => Err(FileFault::Failed),
            opened => opened,
        }
    }

    fn open_once(
        &self,
        alloc: Global,
        name: &NodeName,
        control: Control,
    ) -> Result<OpenControl<R::File>, FileFault> {
        let devnum_path = self.path_of(alloc, name, "devnum")?;
        self.open_numbered(alloc, name, control, devnum_path)
    }

    // Whether a device's folder stands.
    fn has_folder(&self, alloc: Global, name: &NodeName) -> Result<bool, FileFault> {
        let path = self.path_of(alloc, name, "")?;
        Ok(is_there(&self.rt, path.as_str()))
    }

    fn hold(&mut self, file: OpenControl<R::File>) -> Opened {
        let number = self.next;
        if self.open.insert(number, file).is_err() {
            return Opened::Memory;
        }
        self.next = number.saturating_add(1);
        Opened::Token(Held(number))
    }

    fn read_text(
        &self,
        alloc: Global,
        name: &NodeName,
        file: &str,
        limit: usize,
    ) -> Result<Content, FileFault> {
        let path = self.path_of(alloc, name, file)?;
        read_file(&self.rt, alloc, path.as_str(), limit)
    }

    // The same of a file that each device has. Where it is missing, it is looked for as a control
    // is.
    fn read_sure(
        &self,
        alloc: Global,
        name: &NodeName,
        file: &str,
        limit: usize,
    ) -> Result<Content, FileFault> {
        match self.read_text(alloc, name, file, limit) {
            Err(FileFault::Missing) if self.has_folder(alloc, name)? => {}
            read => return read,
        }
        match self.read_text(alloc, name, file, limit) {
            Err(FileFault::Missing) if self.has_folder(alloc, name)? => Err(FileFault::Failed),
            read => read,
        }
    }

    fn read_attr(&self, alloc: Global, name: &NodeName, attr: Attr) -> Result<Content, FileFault> {
        match attr {
            Attr::Descriptors => self.read_sure(alloc, name, "descriptors", 131072),
            Attr::Product => self.read_text(alloc, name, "product", 4096),
            Attr::Serial => self.read_text(alloc, name, "serial", 4096),
            Attr::Connect => read_connect_type(&self.rt, alloc, self.root.as_str(), name),
        }
    }

    pub fn list(&mut self) -> Listing
        ensures few { HasFew result }
        ensures distinct { AreDistinct result }
    {
        let listing = list_devices(&self.rt, self.root.as_str());
        let failed = matches!(listing, Listing::Failed);
        self.told.look(&self.rt, self.root.as_str(), failed);
        listing
    }

    pub fn open_control(&mut self, alloc: Global, name: &NodeName, control: Control) -> Opened {
        match self.open(alloc, name, control) {
            Ok(file) => self.hold(file),
            Err(FileFault::Missing) => Opened::Absent,
            Err(FileFault::Failed) => Opened::Failed,
            Err(FileFault::Memory) => Opened::Memory,
        }
    }

    /// Reads a file by its device's name.
    pub fn read(&mut self, alloc: Global, name: &NodeName, attr: Attr) -> ReadOut {
        read_out_of(self.read_attr(alloc, name, attr))
    }

    pub fn probe(&mut self, held: Held) -> Probe {
        match self.open.get_mut(&held.0) {
            Some(control) => probe_control(&self.rt, control),
            None => Probe::Failed,
        }
    }

    pub fn write(&mut self, held: Held, what: Write) -> Wrote {
        match self.open.get_mut(&held.0) {
            Some(control) => write_control(&self.rt, control, what),
            None => Wrote::Failed,
        }
    }

    pub fn close(&mut self, held: Held) {
        let _closed = self.open.remove(&held.0);
    }
}

fn read_out_of(read: Result<Content, FileFault>) -> ReadOut {
    match read {
        Ok(Content::Whole(text)) => ReadOut::Bytes(text),
        Ok(Content::TooLong) => ReadOut::TooLong,
        Err(FileFault::Missing) => ReadOut::Absent,
        Err(FileFault::Failed) => ReadOut::Failed,
        Err(FileFault::Memory) => ReadOut::Memory,
    }
}

// Whether something stands at a path, as far as that can be told.
fn is_there<R: Files>(rt: &R, path: &str) -> bool {
    match fs::metadata(rt, path) {
        Ok(_) => true,
        Err(error) => !matches!(FileFault::from(error), FileFault::Missing),
    }
}

// Whether the device of a control is gone, as its name tells: its folder is missing, or its device has another number.
fn is_replaced<R: Files>(rt: &R, control: &OpenControl<R::File>) -> bool {
    let path = control.devnum_path.as_str();
    match read_number(rt, path) {
        Ok(devnum) => devnum != control.devnum,
        Err(FileFault::Missing) => !is_there(rt, folder_of(path)),
        Err(_) => false,
    }
}

// Whether the device of a control is gone, as its file tells that can be read, or else its name. The name alone doesn't serve: a
// root hub's number is always 1, and those of its devices begin anew with it.
fn is_gone<R: Files>(rt: &R, control: &mut OpenControl<R::File>) -> bool {
    match read_first(&mut control.file) {
        Err(FileFault::Missing) => true,
        _ => is_replaced(rt, control),
    }
}

fn probe_control<R: Files>(rt: &R, control: &mut OpenControl<R::File>) -> Probe {
    match read_first(&mut control.file) {
        Ok(Some(b'0')) => Probe::Alive(false),
        Ok(Some(b'1')) => Probe::Alive(true),
        Err(FileFault::Missing) => Probe::Gone,
        _ => {
            if is_replaced(rt, control) {
                Probe::Gone
            } else {
                Probe::Failed
            }
        }
    }
}

fn write_control<R: Files>(rt: &R, control: &mut OpenControl<R::File>, what: Write) -> Wrote {
    let byte = match what {
        Write::On => b'1',
        Write::Off => b'0',
        Write::Remove => b'1',
        Write::DefaultOff => b'0',
        Write::DefaultOn => b'1',
    };
    match write_byte(&mut control.file, byte) {
        Ok(()) => Wrote::Done,
        Err(_) => {
            if is_gone(rt, control) {
                Wrote::Gone
            } else {
                Wrote::Failed
            }
        }
    }
}
