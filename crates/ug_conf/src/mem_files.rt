// Files of settings in memory.
ghost use Rattle.std.specs.Prelude.{◌≡◌, true, Some, IfOk, option_copied, nat_eq};
ghost use Rattle.std.specs.List.{find};
ghost use Rattle.ug_types.specs.Ends.{IsCounted, Rose};
ghost use Rattle.ug_conf.specs.Files.{FitsText, pointwise, tree};
ghost use Rattle.ug_conf.specs.MemFiles.{GivesFiles, IsBegun, IsCopy, IsNamesCopy, files_tell};

use crate::files::{ConfFiles, FileRead, FolderRead};
use crate::tree::{MemFile, MemFolder};
use std::alloc::Global;
use ug_types::{List, NoMemory, TEXT_LIMIT, Text};

/// Files and folders, and the numbers of the calls that fail. The first call is number 1. Of two files at one path the first counts,
/// and so it is of folders.
#[derive(Drop)]
pub struct MemFiles {
    files: Vec<MemFile>,
    folders: Vec<MemFolder>,
    failing: Vec<u64>,
    calls: u64,
    faults: u64,
}

impl MemFiles {
    pub fn new(files: Vec<MemFile>, folders: Vec<MemFolder>, failing: Vec<u64>) -> MemFiles
        ensures files { result.files ≡ files }
        ensures folders { result.folders ≡ folders }
        ensures failing { result.failing ≡ failing }
        ensures calls { result.calls ≡ 0 }
        ensures faults { result.faults ≡ 0 }
    {
        MemFiles {
            files,
            folders,
            failing,
            calls: 0,
            faults: 0,
        }
    }

    // Counts a call, and tells whether it is to fail.
    fn begin_call(&mut self) -> bool
        ensures begun { IsBegun self.old result self.new }
        ensures counted { IsCounted self.old.faults self.new.faults }
        ensures cause { result ≡ true → Rose self.old.faults self.new.faults }
    {
        self.calls = self.calls.saturating_add(1);
        let fails = self.failing.contains(&self.calls);
        if fails {
            self.faults = self.faults.saturating_add(1);
        }
        fails
    }
}

fn find_file<'a>(files: &'a [MemFile], path: &[u8]) -> Option<&'a MemFile>
    ensures { option_copied result ≡ find (λ f. pointwise nat_eq f.path path.now) files.now }
{
    for file in files {
        if file.path.bytes() == path {
            return Some(file);
        }
    }
    None
}

fn find_folder<'a>(folders: &'a [MemFolder], path: &[u8]) -> Option<&'a MemFolder>
    ensures { option_copied result ≡ find (λ f. pointwise nat_eq f.path path.now) folders.now }
{
    for folder in folders {
        if folder.path.bytes() == path {
            return Some(folder);
        }
    }
    None
}

fn copy_file(alloc: Global, file: Option<&MemFile>) -> FileRead
    ensures copy { IsCopy (option_copied file.entry) result }
    ensures fits { FitsText result }
{
    let Some(file) = file else {
        return FileRead::Absent;
    };
    if file.text.bytes().len() > TEXT_LIMIT {
        return FileRead::TooLong;
    }
    match Text::of(alloc, file.text.bytes()) {
        Ok(text) => FileRead::Bytes(text),
        Err(NoMemory) => FileRead::Memory,
    }
}

fn copy_texts(alloc: Global, texts: &[Text]) -> Result<List<Text>, NoMemory>
    ensures { IfOk result (λ copies. copies ≡ texts.now) }
{
    let mut copies = List::new(alloc);
    for text in texts {
        copies.push(Text::of(alloc, text.bytes())?)?;
    }
    Ok(copies)
}

fn copy_folder(alloc: Global, folder: Option<&MemFolder>) -> FolderRead
    ensures { IsNamesCopy (option_copied folder.entry) result }
{
    let Some(folder) = folder else {
        return FolderRead::Absent;
    };
    match copy_texts(alloc, folder.names.as_slice()) {
        Ok(names) => FolderRead::Names(names),
        Err(NoMemory) => FolderRead::Memory,
    }
}

impl ConfFiles for MemFiles {
    ghost gives = { GivesFiles };

    ghost told = { λ s. Some (tree s.files.items s.folders.items) };

    ghost faults = { λ s. s.faults };

    ghost tells = { files_tell };

    fn read_file(&mut self, alloc: Global, path: &[u8]) -> FileRead {
        if self.begin_call() {
            return FileRead::Failed;
        }
        copy_file(alloc, find_file(self.files.as_slice(), path))
    }

    fn list_folder(&mut self, alloc: Global, path: &[u8]) -> FolderRead {
        if self.begin_call() {
            return FolderRead::Failed;
        }
        copy_folder(alloc, find_folder(self.folders.as_slice(), path))
    }

    fn faults(&self) -> u64 {
        self.faults
    }
}
