// Files and folders of a test, below the folder in which it runs. Each test has a folder of its own.
use std::fs;
use std::os::unix::fs::PermissionsExt;

/// Makes a folder anew.
pub fn make_folder(rt: &HostRuntime, path: &str) -> bool {
    let _old = fs::remove_dir_all(rt, path).is_ok();
    fs::create_dir_all(rt, path).is_ok()
}

pub fn remove_folder(rt: &HostRuntime, path: &str) -> bool {
    fs::remove_dir_all(rt, path).is_ok()
}

pub fn put(rt: &HostRuntime, path: &str, text: &[u8]) -> bool {
    fs::write(rt, path, text).is_ok()
}

pub fn set_mode(rt: &HostRuntime, path: &str, mode: u32) -> bool {
    fs::set_permissions(rt, path, fs::Permissions::from_mode(mode)).is_ok()
}

/// Whether a file has that text.
pub fn holds(rt: &HostRuntime, path: &str, text: &[u8]) -> bool {
    match fs::read(rt, path) {
        Ok(read) => read.as_slice() == text,
        Err(_) => false,
    }
}
