//! The folder in which a program was started.
use odb_base::{BadPath, NoMemory, PathText};
use std::alloc::Global;
use std::rt::Env;
use std::{env, io};

/// The folder in which the program was started; None if the system doesn't report it, or it is no path of text.
pub fn working_folder<R: Env + AllocGlobal>(
    rt: &R,
    alloc: Global,
) -> Result<Option<PathText>, NoMemory> {
    match env::current_dir(rt) {
        Ok(folder) => path_of(alloc, folder.as_str()),
        Err(error) if error.kind() == io::ErrorKind::OutOfMemory => Err(NoMemory),
        Err(_) => Ok(None),
    }
}

fn path_of(alloc: Global, text: &str) -> Result<Option<PathText>, NoMemory> {
    match PathText::parse(alloc, text) {
        Ok(path) => Ok(Some(path)),
        Err(BadPath::Malformed) => Ok(None),
        Err(BadPath::NoMemory) => Err(NoMemory),
    }
}
