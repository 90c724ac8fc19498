// Where the files of names lie.
use std::fs::File;
use std::io::{self, ErrorKind};
use std::path::{Path, PathBuf};
use std::rt::Files;

// How many symbolic links are followed at most, as by the system.
const MOST_LINKS: u32 = 40;

// The path of the file that has this name, or would have it: where the name is a symbolic link, what that names.
pub fn followed<R: Files + Alloc>(rt: &R, name: &str) -> io::Result<PathBuf<R::A>> {
    let mut path = PathBuf::from_str(rt.alloc(), name)?;
    for _ in 0..MOST_LINKS {
        match rt.symlink_metadata(path.as_path().as_str()) {
            Ok(metadata) if metadata.is_symlink() => {}
            Ok(_) => return Ok(path),
            Err(error) if error.kind() == ErrorKind::NotFound => return Ok(path),
            Err(error) => return Err(error),
        }
        let target = rt.read_link(rt.alloc(), path.as_path().as_str())?;
        path.pop();
        path.push(target.as_path())?;
    }
    Err(io::Error::from(ErrorKind::FilesystemLoop))
}

// The folder where the file of this path lies, to be synced.
pub fn open_folder<R: Files>(rt: &R, path: Path<'_>) -> io::Result<R::File> {
    match path.parent() {
        Some(folder) if !folder.as_str().is_empty() => File::open(rt, folder.as_str()),
        _ => File::open(rt, "."),
    }
}
