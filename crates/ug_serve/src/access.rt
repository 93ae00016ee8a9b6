// Who may do what, and for whom is listened: the access files, and the users and groups of the settings.
ghost use Rattle.std.specs.Prelude.{◌≡◌, ◌≤◌, ◌<◌, ◌^◌, [], ◌∷◌, ◌++◌, length, IfOk, OnOk, Err};
ghost use Rattle.std.specs.Cmp.Lexicographic.{slice_cmp};
ghost use Rattle.std.specs.Ordering.{nat_cmp};
ghost use Rattle.ug_types.specs.Ends.{IsCounted, Rose};
ghost use Rattle.ug_types.specs.Principals.{principal_of, principal_text};
ghost use Rattle.ug_acl.specs.Acls.{addition};
ghost use Rattle.ug_store.specs.Store.{seen_by};
ghost use Rattle.ug_serve.specs.Access.{AreInByteOrder, AreListed, AreOnce, GrantsIn, GrantsOf, OpensTo, ReadsGrants};
ghost use Rattle.ug_serve.specs.Access.{ReadsFolder, ReadsNamed, ReadsNames, added_for, path_in, user_additions, with_new};
ghost use Rattle.ug_serve.specs.declared.not_started.NotStarted.TheVariants.{DiskFailed, FilesFailed};

use crate::listed::list_in_order;
use crate::not_started::NotStarted;
use std::alloc::Global;
use std::cmp::Ordering;
use ug_acl::{Acl, Grants, parse_access, parse_file_name};
use ug_audit::ConfigPart;
use ug_conf::{ConfFiles, FileRead, FolderRead, Settings};
use ug_types::{FileFault, List, NoMemory, Principal, Text};

/// Who may do what, and those who may do something, in byte order, each once.
#[derive(Drop)]
pub struct Access {
    pub acl: Acl,
    pub principals: List<Principal>,
}

/// What was added so far, and for whom.
#[derive(Drop)]
struct Added {
    acl: Acl,
    principals: Vec<Principal>,
}

impl Added {
    fn add(&mut self, who: Principal, grants: &Grants) -> Result<(), NoMemory>
        ensures acl { OnOk result (self.new.acl ≡ self.old.acl ++ addition who grants.now ∷ []) }
        ensures principals { OnOk result
            (self.new.principals.items ≡ self.old.principals.items ++ who ∷ []) }
    {
        self.principals.push(who)?;
        self.acl.add(who, grants)?;
        Ok(())
    }
}

/// The path of a folder's file.
pub fn path_in(alloc: Global, folder: &[u8], name: &[u8]) -> Result<Text, NoMemory>
    ensures { IfOk result (λ path. path ≡ path_in folder.now name.now) }
{
    let mut path = Vec::new(alloc);
    path.extend_from_slice(folder)?;
    if !folder.ends_with(b"/") {
        path.push(b'/')?;
    }
    path.extend_from_slice(name)?;
    Ok(Text::from_vec(path))
}

fn grants_of(alloc: Global, text: &[u8]) -> Result<Grants, NotStarted>
    ensures { GrantsOf text.now result }
{
    match parse_access(alloc, text) {
        Ok(grants) => Ok(grants),
        Err(FileFault::Bad(bad)) => Err(NotStarted::Refused(ConfigPart::Access, bad)),
        Err(FileFault::Memory) => Err(NotStarted::Memory),
    }
}

/// What the access file at that path grants. An absent one grants nothing.
fn grants_in(alloc: Global, answer: FileRead) -> Result<Grants, NotStarted>
    ensures grants { GrantsIn answer result }
    ensures cause { result ≡ Err FilesFailed → answer ≡ FileRead.Failed }
    ensures not_disk { ¬ (result ≡ Err DiskFailed) }
{
    match answer {
        FileRead::Bytes(text) => grants_of(alloc, text.bytes()),
        FileRead::Absent => grants_of(alloc, b""),
        FileRead::TooLong => Err(NotStarted::whole(ConfigPart::Access)),
        FileRead::Failed => Err(NotStarted::FilesFailed),
        FileRead::Memory => Err(NotStarted::Memory),
    }
}

fn read_grants<F: ConfFiles>(
    alloc: Global,
    folder: &[u8],
    name: &[u8],
    files: &mut F,
) -> Result<Grants, NotStarted>
    ensures reads { ReadsGrants F.gives folder.now name.now files.old result files.new }
    ensures counted { F.faults files.old ≤ F.faults files.new }
    ensures cause { result ≡ Err FilesFailed → Rose (F.faults files.old) (F.faults files.new) }
    ensures not_disk { ¬ (result ≡ Err DiskFailed) }
{
    let path = path_in(alloc, folder, name)?;
    grants_in(alloc, files.read_file(alloc, path.bytes()))
}

/// Adds what the folder's file of that name grants to the user or the group whose name it bears.
fn add_file<F: ConfFiles>(
    alloc: Global,
    folder: &[u8],
    name: &[u8],
    files: &mut F,
    added: &mut Added,
) -> Result<(), NotStarted>
    requires { added.old.principals.items ≡ added_for added.old.acl }
    ensures reads { ReadsNamed F.gives folder.now (principal_of name.now) name.now added.old.acl
        files.old (seen_by (λ _. added.new.acl) result) files.new }
    ensures kept { OnOk result (added.new.principals.items ≡ added_for added.new.acl) }
    ensures counted { F.faults files.old ≤ F.faults files.new }
    ensures cause { result ≡ Err FilesFailed → Rose (F.faults files.old) (F.faults files.new) }
    ensures not_disk { ¬ (result ≡ Err DiskFailed) }
{
    let who = match parse_file_name(name) {
        Ok(who) => who,
        Err(fault) => return Err(NotStarted::of_access(fault)),
    };
    let grants = read_grants(alloc, folder, name, files)?;
    added.add(who, &grants)?;
    Ok(())
}

fn add_files<F: ConfFiles>(
    alloc: Global,
    folder: &[u8],
    names: &[Text],
    files: &mut F,
    added: &mut Added,
) -> Result<(), NotStarted>
    requires { added.old.principals.items ≡ added_for added.old.acl }
    ensures reads { ReadsNames F.gives folder.now names.now added.old.acl
        files.old (seen_by (λ _. added.new.acl) result) files.new }
    ensures kept { OnOk result (added.new.principals.items ≡ added_for added.new.acl) }
    ensures counted { F.faults files.old ≤ F.faults files.new }
    ensures cause { result ≡ Err FilesFailed → Rose (F.faults files.old) (F.faults files.new) }
    ensures not_disk { ¬ (result ≡ Err DiskFailed) }
{
    for name in names {
        add_file(alloc, folder, name.bytes(), files, added)?;
    }
    Ok(())
}

fn compare_texts(a: &Text, b: &Text) -> Ordering
    ensures { result ≡ slice_cmp nat_cmp a.now b.now }
{
    a.bytes().cmp(b.bytes())
}

/// The names in byte order.
pub fn in_byte_order(names: List<Text>) -> Vec<Text>
    ensures { AreInByteOrder names result.items }
{
    let mut names = names.into_vec();
    names.sort_unstable_by(compare_texts);
    names
}

fn add_folder<F: ConfFiles>(
    alloc: Global,
    folder: &[u8],
    files: &mut F,
    added: &mut Added,
) -> Result<(), NotStarted>
    requires empty { added.old.acl ≡ [] }
    requires kept { added.old.principals.items ≡ added_for added.old.acl }
    ensures reads { ReadsFolder F.gives folder.now
        files.old (seen_by (λ _. added.new.acl) result) files.new }
    ensures kept { OnOk result (added.new.principals.items ≡ added_for added.new.acl) }
    ensures counted { F.faults files.old ≤ F.faults files.new }
    ensures cause { result ≡ Err FilesFailed → Rose (F.faults files.old) (F.faults files.new) }
    ensures not_disk { ¬ (result ≡ Err DiskFailed) }
{
    match files.list_folder(alloc, folder) {
        FolderRead::Names(names) => {
            let names = in_byte_order(names);
            add_files(alloc, folder, names.as_slice(), files, added)
        }
        FolderRead::Absent => Ok(()),
        FolderRead::Failed => Err(NotStarted::FilesFailed),
        FolderRead::Memory => Err(NotStarted::Memory),
    }
}

fn add_users(users: &[Principal], added: &mut Added) -> Result<(), NoMemory>
    ensures acl { OnOk result (added.new.acl ≡ added.old.acl ++ user_additions users.now) }
    ensures principals { OnOk result
        (added.new.principals.items ≡ added.old.principals.items ++ users.now) }
{
    let all = Grants::all();
    for user in users {
        added.add(*user, &all)?;
    }
    Ok(())
}

/// Adds the users, and lists all that something was added for.
fn list_with(
    alloc: Global,
    users: &[Principal],
    added: &mut Added,
) -> Result<List<Principal>, NoMemory>
    requires { added.old.principals.items ≡ added_for added.old.acl }
    ensures acl { OnOk result (added.new.acl ≡ added.old.acl ++ user_additions users.now) }
    ensures listed { IfOk result (λ principals. AreListed (added_for added.new.acl) principals) }
    ensures few { IfOk result (λ principals. length principals < 2 ^ 32) }
{
    add_users(users, added)?;
    list_in_order(alloc, added.principals.as_slice())
}

/// What the files of the access folder grant, in byte order of their names, and behind that everything to the users and groups of the
/// settings. An absent folder or file is empty.
pub fn read_access<F: ConfFiles>(
    alloc: Global,
    settings: &Settings,
    files: &mut F,
) -> Result<Access, NotStarted>
    ensures opens { OpensTo F.gives settings.now.users settings.now.access_folder files.old result
        files.new }
    ensures few { IfOk result (λ access. length access.principals < 2 ^ 32) }
    ensures counted { F.faults files.old ≤ F.faults files.new }
    ensures cause { result ≡ Err FilesFailed → Rose (F.faults files.old) (F.faults files.new) }
    ensures not_disk { ¬ (result ≡ Err DiskFailed) }
{
    let mut added = Added {
        acl: Acl::new(alloc),
        principals: Vec::new(alloc),
    };
    match add_folder(alloc, settings.access_folder.bytes(), files, &mut added) {
        Ok(()) => {}
        Err(why) => {
            drop(added);
            return Err(why);
        }
    }
    match list_with(alloc, settings.users.as_slice(), &mut added) {
        Ok(principals) => Ok(Access {
            acl: added.acl,
            principals,
        }),
        Err(NoMemory) => {
            drop(added);
            Err(NotStarted::Memory)
        }
    }
}
