// What files of settings in memory are made of.
ghost use Rattle.std.specs.Prelude.{◌≡◌, ◌<◌, ◌^◌, length};
ghost use Rattle.ug_types.specs.Elements.{AllDistinct};
ghost use Rattle.ug_conf.specs.Distinct.{distinct_prop};

use ug_types::{List, Text};

/// A file in memory.
#[derive(Drop)]
pub struct MemFile {
    pub path: Text,
    pub text: Text,
}

/// A folder in memory, with the names in it.
#[derive(Drop)]
pub struct MemFolder {
    pub(crate) path: Text,
    pub(crate) names: List<Text>,
    ghost few: { length names < 2 ^ 31 },
    ghost distinct: { AllDistinct names } by { distinct_prop names },
}

impl MemFolder {
    pub fn new(path: Text, names: List<Text>) -> MemFolder
        requires few { length names < 2 ^ 31 }
        requires distinct { AllDistinct names }
        ensures path { result.path ≡ path }
        ensures names { result.names ≡ names }
    {
        MemFolder { path, names }
    }
}
