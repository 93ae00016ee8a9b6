// What lies in a folder.
use std::alloc::Global;
use std::fs;
use std::io::ErrorKind;

// Keeps a name, and tells whether there was memory for it.
fn keep_name(alloc: Global, name: &str, names: &mut Vec<String>) -> bool {
    match String::from_str(alloc, name) {
        Ok(name) => names.push(name).is_ok(),
        Err(_) => false,
    }
}

// Keeps the names of what lies in a folder, as far as they are UTF-8, and tells whether these are all.
fn keep_names(rt: &HostRuntime, folder: &str, names: &mut Vec<String>) -> bool {
    let Ok(entries) = fs::read_dir(rt, folder) else {
        return false;
    };
    for entry in entries {
        let is_kept = match entry {
            Ok(entry) => keep_name(rt.alloc(), entry.file_name(), names),
            Err(error) => error.kind() == ErrorKind::InvalidFilename,
        };
        if !is_kept {
            return false;
        }
    }
    true
}

/// The names of what lies in a folder, in no order, but those that aren't UTF-8. None where they can't be had.
pub fn names_in(rt: &HostRuntime, folder: &str) -> Option<Vec<String>> {
    let mut names = Vec::new(rt.alloc());
    if !keep_names(rt, folder, &mut names) {
        drop(names);
        return None;
    }
    Some(names)
}
