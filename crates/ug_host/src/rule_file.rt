// The rule file on this machine.
ghost use Rattle.std.specs.Prelude.{◌≡◌, ◌≤◌, ◌<◌, ◌+◌, ◌-◌, ◌^◌, true, None};
ghost use Rattle.ug_types.specs.Ends.{IsCounted, Rose};
ghost use Rattle.ug_store.specs.DiskCalls.{CountsOnDisk, FitsLoaded, NeedsNoMemory, failed_load, failed_answer};
ghost use Rattle.ug_host.specs.RuleFiles.{CallsAt, same_path};
ghost use Rattle.ug_files.specs.Untold.{untold};

use crate::known_texts::{FoundText, KnownTexts};
use crate::saves_told::SavesTold;
use std::alloc::Global;
use std::io::{self, ErrorKind};
use std::os::fd::AsRawFd;
use std::rt::Files;
use ug_files::{Content, FileFault, Fresh, make_fresh, read_at, text_of};
use ug_store::{DiskAnswer, Loaded, RuleDisk};
use ug_types::{NoMemory, Text};

/// A new file, and its text, which is to take the rule file's place.
#[derive(Drop)]
struct Coming<F> {
    file: Fresh<F>,
    text: Text,
}

/// Why a step of a save isn't done.
#[derive(Clone, Copy)]
enum Unsaved {
    /// Another hand changed the file.
    Changed,
    /// It did so before, and nothing has changed since.
    AsBefore,
    Failed(io::Error),
}

impl From<io::Error> for Unsaved {
    fn from(error: io::Error) -> Unsaved {
        Unsaved::Failed(error)
    }
}

/// A rule file of this machine. A save writes a new file beside it, which has its owner and mode, and then takes its place; a link in
/// the rule file's place is followed, and stays. What it answers is told by the machine alone.
///
/// A text that the daemon doesn't know is never overwritten: where the file has neither the text that was loaded, nor the one that was
/// saved since, nor the one that a failed save tried to write, a save fails. That is told on
/// standard error, once for each change of the file. A file that is gone is written anew. Where a
/// save fails for another reason, that is told once, and when the next one is done.
#[derive(Drop)]
pub struct RuleFile<R: Files> {
    rt: R,
    path: Text,
    coming: Option<Coming<R::File>>,
    texts: KnownTexts,
    told: SavesTold,
    faults: u64,
}

impl<R: Files> RuleFile<R>
where
    R::File: AsRawFd,
{
    /// No rule file is named yet. It takes no memory.
    pub fn new(rt: R, alloc: Global) -> RuleFile<R>
        ensures faults { result.faults ≡ 0 }
    {
        RuleFile {
            rt,
            path: Text::new(alloc),
            coming: None,
            texts: KnownTexts::new(alloc),
            told: SavesTold::new(alloc),
            faults: 0,
        }
    }

    /// The path that was named last.
    pub fn path(&self) -> &[u8] {
        self.path.bytes()
    }

    // A failure more, if it is one.
    fn count(&mut self, failed: bool)
        ensures counted { IsCounted self.old.faults self.new.faults }
        ensures cause { failed ≡ true → Rose self.old.faults self.new.faults }
        ensures path { self.new.path ≡ self.old.path }
    {
        if failed {
            self.faults = self.faults.saturating_add(1);
        }
    }

    fn read(&self, alloc: Global) -> Loaded
        ensures { FitsLoaded result }
    {
        let path = match text_of(self.path.bytes()) {
            Ok(path) => path,
            Err(_) => return Loaded::Failed,
        };
        match read_at(&self.rt, alloc, path) {
            Ok(Some(Content::Whole(text))) => Loaded::Bytes(text),
            Ok(Some(Content::TooLong)) => Loaded::TooLong,
            Ok(None) => Loaded::Absent,
            Err(FileFault::Memory) => Loaded::Memory,
            Err(_) => Loaded::Failed,
        }
    }

    // Keeps the text that was loaded.
    fn keep_loaded(&mut self, alloc: Global, loaded: &Loaded)
        ensures faults { self.new.faults ≡ self.old.faults }
        ensures path { self.new.path ≡ self.old.path }
    {
        let bytes = match loaded {
            Loaded::Bytes(text) => text.bytes(),
            _ => b"".as_slice(),
        };
        self.texts.begin(alloc, bytes);
    }

    // Fails where the file may not be overwritten.
    fn check_known(&mut self) -> Result<(), Unsaved>
        ensures faults { self.new.faults ≡ self.old.faults }
        ensures path { self.new.path ≡ self.old.path }
    {
        let path = path_of(self.path.bytes())?;
        match self.texts.look(&self.rt, path)? {
            FoundText::Known => Ok(()),
            FoundText::NewStrange => Err(Unsaved::Changed),
            FoundText::Strange => Err(Unsaved::AsBefore),
        }
    }

    // A new file of that text.
    fn make_new(&self, alloc: Global, text: &[u8]) -> io::Result<Coming<R::File>> {
        let path = path_of(self.path.bytes())?;
        let kept = Text::of(alloc, text).map_err(no_memory)?;
        let file = make_fresh(&self.rt, alloc, path, text)?;
        Ok(Coming { file, text: kept })
    }

    fn write(&mut self, alloc: Global, text: &[u8]) -> Result<(), Unsaved>
        ensures faults { self.new.faults ≡ self.old.faults }
        ensures path { self.new.path ≡ self.old.path }
    {
        self.coming = None;
        self.check_known()?;
        self.coming = Some(self.make_new(alloc, text)?);
        Ok(())
    }

    fn sync(&self) -> Result<(), Unsaved> {
        match &self.coming {
            Some(coming) => Ok(coming.file.sync()?),
            None => Err(Unsaved::Failed(io::Error::from(ErrorKind::NotFound))),
        }
    }

    // Puts the new file in the other's place, if that has a known text still. From then on the file
    // has the new text, or may have it.
    fn put(&mut self, coming: Coming<R::File>) -> Result<(), Unsaved>
        ensures faults { self.new.faults ≡ self.old.faults }
        ensures path { self.new.path ≡ self.old.path }
    {
        self.check_known()?;
        match coming.file.swap(&self.rt) {
            Ok(()) => {
                self.texts.set(coming.text);
                Ok(())
            }
            Err(error) => {
                self.texts.set_tried(coming.text);
                Err(Unsaved::Failed(error))
            }
        }
    }

    // The same of the file that was written last.
    fn replace(&mut self) -> Result<(), Unsaved>
        ensures faults { self.new.faults ≡ self.old.faults }
        ensures path { self.new.path ≡ self.old.path }
    {
        match self.coming.take() {
            Some(coming) => self.put(coming),
            None => Err(Unsaved::Failed(io::Error::from(ErrorKind::NotFound))),
        }
    }

    // Tells a person that a step of a save failed, and why.
    fn tell_failed(&mut self, done: &Result<(), Unsaved>)
        ensures faults { self.new.faults ≡ self.old.faults }
        ensures path { self.new.path ≡ self.old.path }
    {
        match done {
            Ok(()) | Err(Unsaved::AsBefore) => {}
            Err(Unsaved::Changed) => self.told.find_changed(self.path.bytes()),
            Err(Unsaved::Failed(error)) => self.told.fail(self.path.bytes(), error),
        }
    }
}

fn no_memory(_error: NoMemory) -> io::Error {
    io::Error::from(ErrorKind::OutOfMemory)
}

// A path as text. One that isn't UTF-8 can't be opened by the library.
fn path_of(path: &[u8]) -> io::Result<&str> {
    match text_of(path) {
        Ok(path) => Ok(path),
        Err(_) => Err(io::Error::from(ErrorKind::InvalidFilename)),
    }
}

fn answer_of(done: Result<(), Unsaved>) -> DiskAnswer {
    match done {
        Ok(()) => DiskAnswer::Done,
        Err(Unsaved::Failed(error)) if error.kind() == ErrorKind::OutOfMemory => DiskAnswer::Memory,
        Err(_) => DiskAnswer::Failed,
    }
}

// The same of a call that takes no memory of its own: where the machine lacks it, the call failed.
fn answer_without_memory(done: Result<(), Unsaved>) -> DiskAnswer
    ensures { NeedsNoMemory result }
{
    match done {
        Ok(()) => DiskAnswer::Done,
        Err(_) => DiskAnswer::Failed,
    }
}

fn is_failed_load(answer: &Loaded) -> bool
    ensures { result ≡ failed_load answer.now }
{
    matches!(answer, Loaded::Failed)
}

fn is_failed(answer: DiskAnswer) -> bool
    ensures { result ≡ failed_answer answer }
{
    matches!(answer, DiskAnswer::Failed)
}

impl<R: Files> RuleDisk for RuleFile<R>
where
    R::File: AsRawFd,
{
    ghost keeps = { λ s call answer t. CallsAt call answer s.path s.faults t.path t.faults };

    ghost told = { λ s. None };

    ghost faults = { λ s. s.faults };

    ghost aimed = { λ s path. s.path ≡ path };

    ghost did = { λ s call answer t n keeps told. untold n told };

    ghost counted = { λ s call answer t keeps. keeps.counts };

    ghost stays = { λ s call answer t path keeps aimed.
        same_path s.path t.path path keeps.same aimed };

    fn aim(&mut self, alloc: Global, path: &[u8]) -> Result<(), NoMemory> {
        self.path = Text::of(alloc, path)?;
        self.coming = None;
        Ok(())
    }

    fn load(&mut self, alloc: Global) -> Loaded {
        let answer = self.read(alloc);
        self.keep_loaded(alloc, &answer);
        self.count(is_failed_load(&answer));
        answer
    }

    fn write_new(&mut self, alloc: Global, text: &[u8]) -> DiskAnswer {
        let done = self.write(alloc, text);
        self.tell_failed(&done);
        let answer = answer_of(done);
        self.count(is_failed(answer));
        answer
    }

    fn sync_new(&mut self) -> DiskAnswer {
        let done = self.sync();
        self.tell_failed(&done);
        let answer = answer_without_memory(done);
        self.count(is_failed(answer));
        answer
    }

    fn swap(&mut self) -> DiskAnswer {
        let done = self.replace();
        self.tell_failed(&done);
        if done.is_ok() {
            self.told.succeed(self.path.bytes());
        }
        let answer = answer_without_memory(done);
        self.count(is_failed(answer));
        answer
    }

    fn faults(&self) -> u64 {
        self.faults
    }
}
