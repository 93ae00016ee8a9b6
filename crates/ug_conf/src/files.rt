// The files of settings.
ghost use Rattle.std.specs.Prelude.{◌≡◌, ℕ, Option, Some};
ghost use Rattle.ug_types.specs.Ends.{IsCounted, Rose};
ghost use Rattle.ug_conf.specs.Files.{FileStep, Read_at, Listed_at, Tree, FitsFolder, FitsText, SaysFiles};

use std::alloc::Global;
use ug_types::{List, Text};

/// The answer to a reading of a file.
#[derive(Drop)]
pub enum FileRead {
    Bytes(Text),
    Absent,
    /// More than 67,108,864 bytes.
    TooLong,
    Failed,
    Memory,
}

/// The answer to a listing of a folder.
#[derive(Drop)]
pub enum FolderRead {
    /// The names in the folder, in any order.
    Names(List<Text>),
    Absent,
    Failed,
    Memory,
}

pub trait ConfFiles {
    /// What a call may answer, and what it leaves.
    ghost gives: { Self → FileStep → Self → Type 0 };

    /// The files and folders, where they are told.
    ghost told: { Self → Option Tree };

    /// How many calls have failed.
    ghost faults: { Self → ℕ };

    /// The bytes of the file at that path.
    fn read_file(&mut self, alloc: Global, path: &[u8]) -> FileRead
        ensures fits { FitsText result }
        ensures gives { gives self.old (Read_at path.now result) self.new }
        ensures counted { IsCounted (faults self.old) (faults self.new) }
        ensures cause { result ≡ FileRead.Failed → Rose (faults self.old) (faults self.new) };

    /// The names in the folder at that path.
    fn list_folder(&mut self, alloc: Global, path: &[u8]) -> FolderRead
        ensures fits { FitsFolder result }
        ensures gives { gives self.old (Listed_at path.now result) self.new }
        ensures counted { IsCounted (faults self.old) (faults self.new) }
        ensures cause { result ≡ FolderRead.Failed → Rose (faults self.old) (faults self.new) };

    /// How many calls have failed.
    fn faults(&self) -> u64
        ensures { result ≡ faults self.now };

    /// Where the files are told after a call, the same were told before it, and its answer is what they say.
    ghost tells: { (s : Self) (step : FileStep) (t : Self) (tree : Tree)
        → gives s step t → told t ≡ Some tree → (told s ≡ Some tree) × SaysFiles tree step };
}
