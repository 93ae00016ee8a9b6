// The files of settings on this machine.
ghost use Rattle.std.specs.Prelude.{◌≡◌, ◌<◌, ◌+◌, ◌-◌, ◌^◌, true, None};
ghost use Rattle.ug_types.specs.Ends.{IsCounted, Rose};
ghost use Rattle.ug_conf.specs.Files.{FitsFolder, FitsText};
ghost use Rattle.ug_files.specs.Untold.{untold};

use crate::entries::list_entries;
use std::alloc::Global;
use std::rt::Files;
use ug_conf::{ConfFiles, FileRead, FolderRead};
use ug_files::{Content, FileFault, read_at, text_of};
use ug_types::Text;

/// Files and folders of this machine. A link is followed. What it answers is told by the machine alone. A file that another user than
/// root and the daemon's own may have written fails, and so does one whose folder such a user may change.
#[derive(Drop)]
pub struct ConfFolder<R> {
    rt: R,
    last: Option<Text>,
    faults: u64,
}

impl<R: Files + AllocGlobal + Clone + Drop> ConfFolder<R> {
    pub fn new(rt: R) -> ConfFolder<R>
        ensures faults { result.faults ≡ 0 }
    {
        ConfFolder {
            rt,
            last: None,
            faults: 0,
        }
    }

    /// The path of the last call.
    pub fn last_path(&self) -> &[u8] {
        match &self.last {
            Some(path) => path.bytes(),
            None => b"",
        }
    }

    // Keeps a path, as far as there is memory for it.
    fn keep(&mut self, alloc: Global, path: &[u8])
        ensures { self.new.faults ≡ self.old.faults }
    {
        self.last = Text::of(alloc, path).ok();
    }

    // A failure more, if it is one.
    fn count(&mut self, failed: bool)
        ensures counted { IsCounted self.old.faults self.new.faults }
        ensures cause { failed ≡ true → Rose self.old.faults self.new.faults }
    {
        if failed {
            self.faults = self.faults.saturating_add(1);
        }
    }

    fn read(&self, alloc: Global, path: &[u8]) -> FileRead
        ensures { FitsText result }
    {
        let path = match text_of(path) {
            Ok(path) => path,
            Err(_) => return FileRead::Failed,
        };
        match read_at(&self.rt, alloc, path) {
            Ok(Some(Content::Whole(text))) => FileRead::Bytes(text),
            Ok(Some(Content::TooLong)) => FileRead::TooLong,
            Ok(None) => FileRead::Absent,
            Err(FileFault::Memory) => FileRead::Memory,
            Err(_) => FileRead::Failed,
        }
    }

    fn list(&self, alloc: Global, path: &[u8]) -> FolderRead
        ensures { FitsFolder result }
    {
        match text_of(path) {
            Ok(path) => list_entries(&self.rt, alloc, path),
            Err(_) => FolderRead::Failed,
        }
    }
}

fn is_failed_file(answer: &FileRead) -> bool
    ensures { answer.now ≡ FileRead.Failed → result ≡ true }
{
    matches!(answer, FileRead::Failed)
}

fn is_failed_folder(answer: &FolderRead) -> bool
    ensures { answer.now ≡ FolderRead.Failed → result ≡ true }
{
    matches!(answer, FolderRead::Failed)
}

impl<R: Files + AllocGlobal + Clone + Drop> ConfFiles for ConfFolder<R> {
    ghost gives = { λ s step t. Unit {0} };

    ghost told = { λ s. None };

    ghost faults = { λ s. s.faults };

    ghost tells = { λ s step t tree gives told. untold tree told };

    fn read_file(&mut self, alloc: Global, path: &[u8]) -> FileRead {
        self.keep(alloc, path);
        let answer = self.read(alloc, path);
        self.count(is_failed_file(&answer));
        answer
    }

    fn list_folder(&mut self, alloc: Global, path: &[u8]) -> FolderRead {
        self.keep(alloc, path);
        let answer = self.list(alloc, path);
        self.count(is_failed_folder(&answer));
        answer
    }

    fn faults(&self) -> u64 {
        self.faults
    }
}
