//! The files of a folder.

use std::{fs, io};

/// The names in a folder, in byte order.
pub(crate) fn names_in_folder(rt: &HostRuntime, folder: &str) -> io::Result<Vec<String>> {
    let mut names = Vec::new(rt.alloc());
    for entry in fs::read_dir(rt, folder)? {
        let entry = entry?;
        names.push(String::from_str(rt.alloc(), entry.file_name())?)?;
    }
    names.sort()?;
    Ok(names)
}

/// The text of a file in a part of a folder.
pub(crate) fn text_of_file(
    rt: &HostRuntime,
    folder: &str,
    part: &str,
    name: &str,
) -> io::Result<String> {
    let path = format!(in rt.alloc(); "{folder}/{part}/{name}")?;
    fs::read_to_string(rt, path.as_str())
}
