// The folder of rules, which stand before those of the rule file.
ghost use Rattle.std.specs.Prelude.{◌≡◌, ◌≤◌, ◌+◌, [], length, IfOk, OnOk, Err};
ghost use Rattle.std.specs.List.{filter};
ghost use Rattle.ug_types.specs.Ends.{IsCounted, Rose};
ghost use Rattle.ug_types.specs.Limits.{text_limit};
ghost use Rattle.ug_conf.specs.FolderFiles.{folder_length, is_rule_file_name};
ghost use Rattle.ug_core.specs.Starting.{AreAscending};
ghost use Rattle.ug_store.specs.Store.{seen_by};
ghost use Rattle.ug_serve.specs.Access.{AreInByteOrder};
ghost use Rattle.ug_serve.specs.Folders.{AddsFile, ReadsRuleFile, ReadsFiles, ReadsRules, ReadsRulesIn, ReadsText, text_given};
ghost use Rattle.ug_serve.specs.declared.not_started.NotStarted.TheVariants.{DiskFailed, FilesFailed};

use crate::access::{in_byte_order, path_in};
use crate::not_started::NotStarted;
use std::alloc::Global;
use ug_audit::ConfigPart;
use ug_conf::{ConfFiles, FileRead, FolderFile, FolderRead, is_rule_file_name};
use ug_types::{List, TEXT_LIMIT, Text};

/// The files that were read, and how many bytes more they may have.
#[derive(Drop)]
struct Gathered {
    files: List<FolderFile>,
    left: usize,
}

/// The text of a folder's file. An absent one is empty.
fn text_given(alloc: Global, answer: FileRead) -> Result<Text, NotStarted>
    ensures text { result ≡ text_given answer }
    ensures cause { result ≡ Err FilesFailed → answer ≡ FileRead.Failed }
    ensures not_disk { ¬ (result ≡ Err DiskFailed) }
{
    match answer {
        FileRead::Bytes(text) => Ok(text),
        FileRead::Absent => Ok(Text::new(alloc)),
        FileRead::TooLong => Err(NotStarted::whole(ConfigPart::Folder)),
        FileRead::Failed => Err(NotStarted::FilesFailed),
        FileRead::Memory => Err(NotStarted::Memory),
    }
}

fn read_text<F: ConfFiles>(
    alloc: Global,
    folder: &[u8],
    name: &[u8],
    files: &mut F,
) -> Result<Text, NotStarted>
    ensures reads { ReadsText F.gives folder.now name.now files.old result files.new }
    ensures counted { F.faults files.old ≤ F.faults files.new }
    ensures cause { result ≡ Err FilesFailed → Rose (F.faults files.old) (F.faults files.new) }
    ensures not_disk { ¬ (result ≡ Err DiskFailed) }
{
    let path = path_in(alloc, folder, name)?;
    text_given(alloc, files.read_file(alloc, path.bytes()))
}

/// Adds a file, unless there are too many bytes in all.
fn add_text(
    alloc: Global,
    name: &[u8],
    text: Text,
    gathered: &mut Gathered,
) -> Result<(), NotStarted>
    requires { folder_length gathered.old.files + gathered.old.left ≡ text_limit }
    ensures adds { AddsFile gathered.old.files name.now text
        (seen_by (λ _. gathered.new.files) result) }
    ensures left { OnOk result
        (folder_length gathered.new.files + gathered.new.left ≡ text_limit) }
{
    let length = text.bytes().len();
    if length > gathered.left {
        return Err(NotStarted::whole(ConfigPart::Folder));
    }
    let name = Text::of(alloc, name)?;
    gathered.files.push(FolderFile { name, text })?;
    gathered.left -= length;
    Ok(())
}

/// Adds the folder's file of that name.
fn add_file<F: ConfFiles>(
    alloc: Global,
    folder: &[u8],
    name: &[u8],
    files: &mut F,
    gathered: &mut Gathered,
) -> Result<(), NotStarted>
    requires { folder_length gathered.old.files + gathered.old.left ≡ text_limit }
    ensures reads { ReadsRuleFile F.gives folder.now name.now gathered.old.files
        files.old (seen_by (λ _. gathered.new.files) result) files.new }
    ensures left { OnOk result
        (folder_length gathered.new.files + gathered.new.left ≡ text_limit) }
    ensures counted { F.faults files.old ≤ F.faults files.new }
    ensures cause { result ≡ Err FilesFailed → Rose (F.faults files.old) (F.faults files.new) }
    ensures not_disk { ¬ (result ≡ Err DiskFailed) }
{
    let text = read_text(alloc, folder, name, files)?;
    add_text(alloc, name, text, gathered)
}

/// The files of those names, in their order.
fn read_files<F: ConfFiles>(
    alloc: Global,
    folder: &[u8],
    names: &[Text],
    files: &mut F,
) -> Result<List<FolderFile>, NotStarted>
    ensures reads { ReadsFiles F.gives folder.now names.now [] files.old result files.new }
    ensures counted { F.faults files.old ≤ F.faults files.new }
    ensures cause { result ≡ Err FilesFailed → Rose (F.faults files.old) (F.faults files.new) }
    ensures not_disk { ¬ (result ≡ Err DiskFailed) }
{
    let mut gathered = Gathered {
        files: List::new(alloc),
        left: TEXT_LIMIT,
    };
    for name in names {
        add_file(alloc, folder, name.bytes(), files, &mut gathered)?;
    }
    Ok(gathered.files)
}

fn counts(name: &Text) -> bool
    ensures { result ≡ is_rule_file_name name.now }
{
    is_rule_file_name(name.bytes())
}

/// The names that count.
fn counting(names: List<Text>) -> List<Text>
    ensures { result ≡ filter is_rule_file_name names }
{
    let mut names = names.into_vec();
    names.retain(counts);
    List::from_vec(names)
}

fn read_listed<F: ConfFiles>(
    alloc: Global,
    folder: &[u8],
    files: &mut F,
) -> Result<List<FolderFile>, NotStarted>
    ensures reads { ReadsRulesIn F.gives folder.now files.old result files.new }
    ensures ascend { IfOk result AreAscending }
    ensures counted { F.faults files.old ≤ F.faults files.new }
    ensures cause { result ≡ Err FilesFailed → Rose (F.faults files.old) (F.faults files.new) }
    ensures not_disk { ¬ (result ≡ Err DiskFailed) }
{
    match files.list_folder(alloc, folder) {
        FolderRead::Names(names) => {
            let names = in_byte_order(counting(names));
            read_files(alloc, folder, names.as_slice(), files)
        }
        FolderRead::Absent => Ok(List::new(alloc)),
        FolderRead::Failed => Err(NotStarted::FilesFailed),
        FolderRead::Memory => Err(NotStarted::Memory),
    }
}

/// The files of the folder of rules that count, in byte order of their names. There are none where the path is empty. An absent folder
/// or file is empty.
pub fn read_folder<F: ConfFiles>(
    alloc: Global,
    folder: &[u8],
    files: &mut F,
) -> Result<List<FolderFile>, NotStarted>
    ensures reads { ReadsRules F.gives folder.now files.old result files.new }
    ensures ascend { IfOk result AreAscending }
    ensures counted { F.faults files.old ≤ F.faults files.new }
    ensures cause { result ≡ Err FilesFailed → Rose (F.faults files.old) (F.faults files.new) }
    ensures not_disk { ¬ (result ≡ Err DiskFailed) }
{
    if folder.is_empty() {
        return Ok(List::new(alloc));
    }
    read_listed(alloc, folder, files)
}
