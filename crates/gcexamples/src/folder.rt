//! The list of examples. They are found by file extension, so that none is left out.
use std::{fs, io};

/// Whether the file of this name is an example: a script, or records of collections.
fn is_run(name: &str) -> bool {
    name.ends_with(".script") || name.ends_with(".records")
}

/// Adds the paths of the examples in the folder.
fn push_examples(rt: &HostRuntime, folder: &str, paths: &mut Vec<String>) -> io::Result<()> {
    for entry in fs::read_dir(rt, folder)? {
        let entry = entry?;
        if is_run(entry.file_name()) {
            paths.push(format!(in rt.alloc(); "{folder}/{}", entry.file_name())?)?;
        }
    }
    Ok(())
}

/// The paths of the examples in the folders of this one, in alphabetical order.
pub fn examples_below(rt: &HostRuntime, top: &str) -> io::Result<Vec<String>> {
    let mut paths = Vec::new(rt.alloc());
    for entry in fs::read_dir(rt, top)? {
        let entry = entry?;
        if entry.file_type()?.is_dir() {
            push_examples(rt, entry.file_name(), &mut paths)?;
        }
    }
    paths.sort()?;
    Ok(paths)
}
