// The place of a store's file, and how a new one comes to stand there.
use crate::SystemFile;
use limits::SLOTS_END;
use std::alloc::Global;
use std::fs::{self, File, OpenFile, OpenOptions};
use std::io::{self, ErrorKind, Write};
use std::rt::Files;

/// How long a new file is, in bytes: up to where the slots end. Its bytes are zero.
const NEW_LEN: usize = SLOTS_END as usize;

/// How many other names are tried for a new file.
const OTHER_NAMES: u32 = 1_000;

// The file `rows.wtd` of a home, locked until it is closed. A missing one is made.
//
// The folder is locked meanwhile, so that one program at a time looks and makes.
pub(crate) fn opened<R: Files>(files: &R, alloc: Global, home: &str) -> io::Result<R::File>
where
    R::File: SystemFile,
{
    let folder = locked_folder(files, home)?;
    let path = format!(in alloc; "{home}/rows.wtd")?;
    if is_missing(files, path.as_str())? {
        make(files, alloc, path.as_str())?;
    }
    match OpenOptions::new()
        .read(true)
        .write(true)
        .open(files, path.as_str())
    {
        Ok(file) => in_synced_folder(file, &folder),
        Err(e) if e.kind() == ErrorKind::ReadOnlyFilesystem => read_only(files, path.as_str()),
        Err(e) => Err(e),
    }
}

// The file, locked. The folder is synced also where the file was there, since the program that made
// the file may have ended before its sync.
fn in_synced_folder<F: SystemFile>(file: F, folder: &F) -> io::Result<F> {
    file.try_lock()?;
    folder.sync_all()?;
    Ok(file)
}

// The file, locked, for reads alone. Its name needs no sync: without a write, the file that a crash
// takes away reads as a new one does.
fn read_only<R: Files>(files: &R, path: &str) -> io::Result<R::File>
where
    R::File: SystemFile,
{
    let file = fs::open(files, path)?;
    file.try_lock()?;
    Ok(file)
}

// Only a folder is opened: the opening of another kind of file may wait for its other end.
fn locked_folder<R: Files>(files: &R, home: &str) -> io::Result<R::File>
where
    R::File: SystemFile,
{
    if !fs::metadata(files, home)?.is_dir() {
        return Err(io::Error::from(ErrorKind::NotADirectory));
    }
    let folder = fs::open(files, home)?;
    folder.try_lock()?;
    Ok(folder)
}

// Whether nothing stands under this name, a link neither. Any other failure to look is an error.
fn is_missing(files: &impl Files, path: &str) -> io::Result<bool> {
    match fs::symlink_metadata(files, path) {
        Ok(_) => Ok(false),
        Err(e) if e.kind() == ErrorKind::NotFound => Ok(true),
        Err(e) => Err(e),
    }
}

// Makes a new file whole and synced under another name, and only then gives it its own, so that
// nothing half made ever stands at `path`. A file that stands there meanwhile is never replaced: it
// is an error. The other name is taken off again.
fn make<R: Files>(files: &R, alloc: Global, path: &str) -> io::Result<()> {
    let (name, file) = new_file(files, alloc, path)?;
    let named = filled(file).and_then(|()| fs::hard_link(files, name.as_str(), path));
    let freed = fs::remove_file(files, name.as_str());
    named.and(freed)
}

// A new file under another name, which no file had before.
fn new_file<R: Files>(files: &R, alloc: Global, path: &str) -> io::Result<(String, R::File)> {
    for number in 0..OTHER_NAMES {
        let name = format!(in alloc; "{path}.{number}")?;
        match File::create_new(files, name.as_str()) {
            Ok(file) => return Ok((name, file)),
            Err(e) if e.kind() == ErrorKind::AlreadyExists => {}
            Err(e) => return Err(e),
        }
    }
    Err(io::Error::from(ErrorKind::AlreadyExists))
}

fn filled<F: Write + OpenFile + Drop>(mut file: F) -> io::Result<()> {
    file.write_all(&[0; NEW_LEN])?;
    file.sync_all()
}
