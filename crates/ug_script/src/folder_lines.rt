// The lines of `folder` lines, file by file.
ghost use Rattle.std.specs.Prelude.{◌≡◌, ◌<◌, ◌≤◌, ◌++◌, ◌∷◌, [], IfOk, OnOk, OnErr};
ghost use Rattle.ug_core.specs.Starting.{AreAscending};
ghost use Rattle.ug_steps.specs.Grammar.{HoldsRule};
ghost use Rattle.ug_script.specs.FolderLines.{HasLines, IsPlaceOf, file_of, files_of, no_folder, one_line_file, with_line, with_line_in};

use std::alloc::Global;
use std::marker::Model;
use ug_conf::{FolderFile, discard_files};
use ug_steps::FolderLine;
use ug_types::{List, NoMemory, Text};

/// A file's name, and its text so far.
#[derive(Drop)]
struct FileText {
    name: Text,
    text: Vec<u8>,
}

/// The files of the folder of rules in byte order of their names, and how many lines they have, each of which holds a rule.
#[derive(Drop)]
pub struct FolderLines {
    alloc: Global,
    files: Vec<FileText>,
    count: usize,
}

impl Model for FolderLines {
    ghost use Rattle.ug_script.specs.FolderLines.{HasLines, ScriptFolder, files_of};

    ghost Value = { ScriptFolder };

    ghost view = { λ l. record { files = files_of l.files.items; count = l.count } };

    ghost invariant = { λ l. HasLines (files_of l.files.items) l.count };
}

// Where the file of that name stands, or else where it has to.
fn place_of(files: &[FileText], name: &[u8]) -> Result<usize, usize>
    requires { AreAscending (files_of files.now) }
    ensures { IsPlaceOf name.now files.now result }
{
    files.binary_search_by(|file| file.name.bytes().cmp(name))
}

// Adds a line and its newline. A refusal changes nothing.
fn add_text(text: &mut Vec<u8>, line: &[u8]) -> Result<(), NoMemory>
    ensures ok { OnOk result (text.new.items ≡ text.old.items ++ (line.now ++ 10 ∷ [])) }
    ensures err { OnErr result (text.new.items ≡ text.old.items) }
{
    text.reserve(line.len().saturating_add(1))?;
    text.extend_from_slice(line)?;
    text.push(b'\n')?;
    Ok(())
}

// A file of that line alone.
fn first_line(alloc: Global, line: &FolderLine) -> Result<FileText, NoMemory>
    ensures { IfOk result (λ file. file_of file ≡ one_line_file line.now) }
{
    let name = Text::of(alloc, line.name.bytes())?;
    let mut text = Vec::new(alloc);
    add_text(&mut text, line.text.bytes())?;
    Ok(FileText { name, text })
}

// Adds a line to its file. A refusal changes nothing.
fn put_line(alloc: Global, files: &mut Vec<FileText>, line: &FolderLine) -> Result<(), NoMemory>
    requires { AreAscending (files_of files.old.items) }
    ensures ok { OnOk result
        (files_of files.new.items ≡ with_line_in line.now (files_of files.old.items)) }
    ensures err { OnErr result (files_of files.new.items ≡ files_of files.old.items) }
{
    match place_of(files.as_slice(), line.name.bytes()) {
        Ok(place) => add_text(&mut files[place].text, line.text.bytes()),
        Err(place) => {
            let file = first_line(alloc, line)?;
            files.insert(place, file)?;
            Ok(())
        }
    }
}

// A file with that name and text.
fn copy_file(alloc: Global, file: &FileText) -> Result<FolderFile, NoMemory>
    ensures { IfOk result (λ copy. copy ≡ file_of file.now) }
{
    let name = Text::of(alloc, file.name.bytes())?;
    let text = Text::of(alloc, file.text.as_slice())?;
    Ok(FolderFile { name, text })
}

// Adds copies of the files.
fn push_copies(
    alloc: Global,
    copies: &mut List<FolderFile>,
    files: &[FileText],
) -> Result<(), NoMemory>
    ensures { OnOk result (copies.new ≡ copies.old ++ files_of files.now) }
{
    for file in files {
        let copy = copy_file(alloc, file)?;
        copies.push(copy)?;
    }
    Ok(())
}

impl FolderLines {
    /// No lines. It takes no memory.
    pub fn new(alloc: Global) -> FolderLines
        ensures { result ≡ no_folder }
    {
        FolderLines {
            alloc,
            files: Vec::new(alloc),
            count: 0,
        }
    }

    /// The number of lines.
    pub fn len(&self) -> usize
        ensures number { result ≡ self.now.count }
        ensures few { self.now.count ≤ 65536 }
    {
        self.count
    }

    /// Adds a line to its file. A refusal changes nothing.
    pub fn push(&mut self, line: &FolderLine) -> Result<(), NoMemory>
        requires room { self.old.count < 65536 }
        requires rule { HoldsRule line.now.text }
        ensures ok { OnOk result (self.new ≡ with_line line.now self.old) }
        ensures err { OnErr result (self.new ≡ self.old) }
    {
        put_line(self.alloc, &mut self.files, line)?;
        self.count += 1;
        Ok(())
    }

    /// The files. Each line reads as a rule, and so each text as so many.
    pub fn files(&self, alloc: Global) -> Result<List<FolderFile>, NoMemory>
        ensures files { IfOk result (λ files. files ≡ self.now.files) }
        ensures ascending { IfOk result AreAscending }
        ensures lines { HasLines self.now.files self.now.count }
    {
        let mut files = List::new(alloc);
        match push_copies(alloc, &mut files, self.files.as_slice()) {
            Ok(()) => Ok(files),
            Err(NoMemory) => {
                discard_files(files);
                Err(NoMemory)
            }
        }
    }
}
