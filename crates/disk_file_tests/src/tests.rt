// What the system's files do with the calls of a disk, one test for each cause.
use disk_file::{FileDisk, SystemFile};
use disk_model::{Disk, Home, Unattached};
use std::alloc::Allocator;
use std::cell::Cell;
use std::fs::{self, File, Metadata, OpenFile, OpenOptions};
use std::io::{self, Error, ErrorKind, Read, Seek, SeekFrom, Write};
use std::os::unix::fs::symlink;
use std::process::Abort;
use std::rt::Files;
use std::{env, process};

fn path_in(rt: &impl Abort, host: HostRuntime, folder: &str, name: &str) -> String {
    let path = format!(in host.alloc(); "{folder}/{name}");
    path.expect(rt, "there is memory")
}

// The name of a folder of this process that no other test uses.
fn folder_name(rt: &impl Abort, host: HostRuntime, test: &str) -> String {
    let id = process::id(host.process());
    let name = format!(in host.alloc(); "disk_file-{id}-{test}");
    name.expect(rt, "there is memory")
}

// A fresh folder of this process, under a name that no other test uses.
fn folder(rt: &impl Abort, host: HostRuntime, test: &str) -> String {
    let temp = env::temp_dir(&host).expect(rt, "a folder");
    let name = folder_name(rt, host, test);
    let path = path_in(rt, host, temp.as_str(), name.as_str());
    let _ = fs::remove_dir_all(&host, path.as_str());
    fs::create_dir(&host, path.as_str()).expect(rt, "a folder");
    path
}

fn remove(rt: &impl Abort, host: HostRuntime, home: &str) {
    fs::remove_dir_all(&host, home).expect(rt, "it is removed");
}

// The names in a folder, in order.
fn sorted_names(rt: &impl Abort, host: HostRuntime, path: &str) -> Vec<String> {
    let mut names = Vec::new(host.alloc());
    for entry in fs::read_dir(&host, path).expect(rt, "it is read") {
        let entry = entry.expect(rt, "it is read");
        let name = String::from_str(host.alloc(), entry.file_name());
        names
            .push(name.expect(rt, "there is memory"))
            .expect(rt, "there is memory");
    }
    names.sort().expect(rt, "there is memory");
    names
}

// The names in a folder, with a blank behind each.
fn names(rt: &impl Abort, host: HostRuntime, path: &str) -> String {
    let mut all = String::new(host.alloc());
    for name in &sorted_names(rt, host, path) {
        all.push_str(name.as_str()).expect(rt, "there is memory");
        all.push(' ').expect(rt, "there is memory");
    }
    all
}

fn check_names(rt: &impl Abort, host: HostRuntime, path: &str, wanted: &str) {
    assert!(rt; names(rt, host, path).as_str() == wanted);
}

fn write_file(rt: &impl Abort, host: HostRuntime, path: &str, text: &str) {
    fs::write(&host, path, text).expect(rt, "it is written");
}

fn check_text(rt: &impl Abort, host: HostRuntime, path: &str, wanted: &str) {
    let text = fs::read_to_string(&host, path).expect(rt, "it is read");
    assert!(rt; text.as_str() == wanted);
}

fn link(rt: &impl Abort, host: HostRuntime, original: &str, path: &str) {
    symlink(&host, original, path).expect(rt, "it is linked");
}

fn is_refused(host: HostRuntime, home: &str) -> bool {
    let mut disk = FileDisk::new(host);
    matches!(disk.attach(host.alloc(), home), Err(Unattached::Failed)) && disk.faults() == 1
}

fn check_attached<R: Files + Drop>(
    rt: &impl Abort,
    host: HostRuntime,
    disk: &mut FileDisk<R>,
    home: &str,
)
where
    R::File: SystemFile,
{
    assert!(rt; disk.attach(host.alloc(), home).is_ok());
}

fn check_unattached<R: Files + Drop>(
    rt: &impl Abort,
    host: HostRuntime,
    disk: &mut FileDisk<R>,
    home: &str,
)
where
    R::File: SystemFile,
{
    assert!(rt; disk.attach(host.alloc(), home).is_err());
}

// A disk with the place.
fn attached(rt: &impl Abort, host: HostRuntime, home: &str) -> FileDisk<HostRuntime> {
    let mut disk = FileDisk::new(host);
    check_attached(rt, host, &mut disk, home);
    disk
}

fn check_len<R: Files + Drop>(rt: &impl Abort, disk: &mut FileDisk<R>, wanted: u64)
where
    R::File: SystemFile,
{
    assert!(rt; matches!(disk.len(), Ok(len) if len == wanted));
}

fn check_faults<R: Files + Drop>(rt: &impl Abort, disk: &FileDisk<R>, wanted: u64)
where
    R::File: SystemFile,
{
    assert!(rt; disk.faults() == wanted);
}

fn check_written<R: Files + Drop>(rt: &impl Abort, disk: &mut FileDisk<R>, at: u64, bytes: &[u8])
where
    R::File: SystemFile,
{
    assert!(rt; disk.write_at(at, bytes).is_ok());
}

fn check_not_written<R: Files + Drop>(
    rt: &impl Abort,
    disk: &mut FileDisk<R>,
    at: u64,
    bytes: &[u8],
)
where
    R::File: SystemFile,
{
    assert!(rt; disk.write_at(at, bytes).is_err());
}

fn check_synced<R: Files + Drop>(rt: &impl Abort, disk: &mut FileDisk<R>)
where
    R::File: SystemFile,
{
    assert!(rt; disk.sync().is_ok());
}

fn check_unsynced<R: Files + Drop>(rt: &impl Abort, disk: &mut FileDisk<R>)
where
    R::File: SystemFile,
{
    assert!(rt; disk.sync().is_err());
}

fn check_zeros<R: Files + Drop>(rt: &impl Abort, disk: &mut FileDisk<R>)
where
    R::File: SystemFile,
{
    let mut bytes = [1; 8_192];
    assert!(rt; disk.read(0, &mut bytes).is_ok());
    assert!(rt; bytes == [0; 8_192]);
}

fn check_new(rt: &impl Abort, host: HostRuntime, home: &str) {
    let mut disk = attached(rt, host, home);
    check_len(rt, &mut disk, 8_192);
    check_zeros(rt, &mut disk);
    check_names(rt, host, home, "rows.wtd ");
    check_faults(rt, &disk, 0);
}

#[test]
fn a_new_file_is_zeros_and_stands_alone(rt: HostRuntime) {
    let home = folder(&rt, rt, "new");
    check_new(&rt, rt, home.as_str());
    remove(&rt, rt, home.as_str());
}

fn write_behind(rt: &impl Abort, host: HostRuntime, home: &str) {
    let mut disk = attached(rt, host, home);
    check_written(rt, &mut disk, 8_190, b"abcd");
    check_synced(rt, &mut disk);
}

fn check_bytes<R: Files + Drop>(rt: &impl Abort, disk: &mut FileDisk<R>)
where
    R::File: SystemFile,
{
    let mut bytes = [0; 6];
    assert!(rt; disk.read(8_188, &mut bytes).is_ok());
    assert!(rt; bytes == *b"\0\0abcd");
}

fn check_end<R: Files + Drop>(rt: &impl Abort, disk: &mut FileDisk<R>)
where
    R::File: SystemFile,
{
    let mut bytes = [0; 6];
    assert!(rt; disk.read(8_190, &mut bytes).is_err());
}

fn check_behind(rt: &impl Abort, host: HostRuntime, home: &str) {
    let mut disk = attached(rt, host, home);
    check_len(rt, &mut disk, 8_194);
    check_bytes(rt, &mut disk);
    check_faults(rt, &disk, 0);
    check_end(rt, &mut disk);
    check_faults(rt, &disk, 1);
}

#[test]
fn what_is_written_is_there_at_the_next_opening(rt: HostRuntime) {
    let home = folder(&rt, rt, "again");
    write_behind(&rt, rt, home.as_str());
    check_behind(&rt, rt, home.as_str());
    remove(&rt, rt, home.as_str());
}

fn check_first(rt: &impl Abort, host: HostRuntime, home: &str) {
    let mut first = attached(rt, host, home);
    assert!(rt; is_refused(host, home));
    check_written(rt, &mut first, 0, b"a");
}

// Another one makes the file.
fn check_maker(rt: &impl Abort, host: HostRuntime, home: &str) {
    let maker = fs::open(&host, home).expect(rt, "it is opened");
    assert!(rt; maker.try_lock().is_ok());
    assert!(rt; is_refused(host, home));
}

#[test]
fn a_second_program_is_refused_until_the_first_has_ended(rt: HostRuntime) {
    let home = folder(&rt, rt, "second");
    check_first(&rt, rt, home.as_str());
    check_maker(&rt, rt, home.as_str());
    drop(attached(&rt, rt, home.as_str()));
    remove(&rt, rt, home.as_str());
}

fn check_refused(rt: &impl Abort, host: HostRuntime, home: &str) {
    assert!(rt; is_refused(host, home), "at {home}");
}

// A folder that is absent, and a file.
fn check_none_in(rt: &impl Abort, host: HostRuntime, at: &str) {
    let missing = path_in(rt, host, at, "missing");
    check_refused(rt, host, missing.as_str());
    let file = path_in(rt, host, at, "file");
    write_file(rt, host, file.as_str(), "text");
    check_refused(rt, host, file.as_str());
}

#[test]
fn a_home_that_is_none_is_refused(rt: HostRuntime) {
    let home = folder(&rt, rt, "none");
    check_none_in(&rt, rt, home.as_str());
    // Nobody makes a file in the system's list of processes.
    for none in ["", "/proc", "a\0b"] {
        check_refused(&rt, rt, none);
    }
    check_names(&rt, rt, home.as_str(), "file ");
    remove(&rt, rt, home.as_str());
}

fn check_folder(rt: &impl Abort, host: HostRuntime, home: &str, path: &str) {
    fs::create_dir(&host, path).expect(rt, "a folder");
    assert!(rt; is_refused(host, home));
    fs::remove_dir(&host, path).expect(rt, "it is removed");
}

fn check_link(rt: &impl Abort, host: HostRuntime, home: &str, path: &str) {
    link(rt, host, "nowhere", path);
    assert!(rt; is_refused(host, home));
    check_names(rt, host, home, "rows.wtd ");
}

#[test]
fn a_name_that_is_taken_otherwise_is_refused(rt: HostRuntime) {
    let home = folder(&rt, rt, "taken");
    let path = path_in(&rt, rt, home.as_str(), "rows.wtd");
    check_folder(&rt, rt, home.as_str(), path.as_str());
    check_link(&rt, rt, home.as_str(), path.as_str());
    remove(&rt, rt, home.as_str());
}

fn check_full(rt: &impl Abort, host: HostRuntime, home: &str) {
    let mut disk = attached(rt, host, home);
    check_not_written(rt, &mut disk, 0, b"a");
    check_faults(rt, &disk, 1);
    check_unsynced(rt, &mut disk);
    check_faults(rt, &disk, 2);
}

#[test]
fn a_device_that_takes_no_byte_and_no_sync_is_a_fault(rt: HostRuntime) {
    let home = folder(&rt, rt, "full");
    let path = path_in(&rt, rt, home.as_str(), "rows.wtd");
    link(&rt, rt, "/dev/full", path.as_str());
    check_full(&rt, rt, home.as_str());
    remove(&rt, rt, home.as_str());
}

fn check_other(rt: &impl Abort, host: HostRuntime, home: &str, other: &str) {
    write_file(rt, host, other, "mine");
    let _disk = attached(rt, host, home);
    check_text(rt, host, other, "mine");
    check_names(rt, host, home, "rows.wtd rows.wtd.0 ");
}

#[test]
fn files_of_others_stay(rt: HostRuntime) {
    let home = folder(&rt, rt, "others");
    let other = path_in(&rt, rt, home.as_str(), "rows.wtd.0");
    check_other(&rt, rt, home.as_str(), other.as_str());
    remove(&rt, rt, home.as_str());
}

fn check_unread<R: Files + Drop>(rt: &impl Abort, disk: &mut FileDisk<R>)
where
    R::File: SystemFile,
{
    assert!(rt; disk.len().is_err());
    assert!(rt; disk.read(0, &mut [0; 1]).is_err());
}

#[test]
fn a_disk_without_a_place_fails(rt: HostRuntime) {
    let mut disk = FileDisk::new(rt);
    check_unread(&rt, &mut disk);
    check_not_written(&rt, &mut disk, 0, b"a");
    check_unsynced(&rt, &mut disk);
    check_faults(&rt, &disk, 4);
}

/// What was asked of the system so far, and what it is to answer.
#[derive(Clone, Copy)]
struct Script {
    /// How many calls were made.
    calls: u64,
    /// The number of the call that fails, from 0 on.
    failing: u64,
    /// How many syncs of a file's bytes were made.
    syncs: u64,
    /// How many syncs of all of a file or a folder were made.
    whole_syncs: u64,
    /// Whether nothing may be opened for writing.
    is_read_only: bool,
    /// Whether a file is made behind each look for it.
    is_late: bool,
}

const NO_FAILURE: Script = Script {
    calls: 0,
    failing: u64::MAX,
    syncs: 0,
    whole_syncs: 0,
    is_read_only: false,
    is_late: false,
};

/// The system's files, by a script.
#[derive(Drop)]
struct Scripted<'a> {
    rt: HostRuntime,
    script: &'a Cell<Script>,
}

/// A file of such files.
#[derive(Drop)]
struct ScriptedFile<'a> {
    file: File,
    script: &'a Cell<Script>,
}

// Notes a call, which fails where its number is the one that is to fail.
fn called(script: &Cell<Script>) -> io::Result<()> {
    let mut now = script.get();
    let number = now.calls;
    now.calls = number.wrapping_add(1);
    script.set(now);
    if number == now.failing {
        return Err(Error::from(ErrorKind::StorageFull));
    }
    Ok(())
}

impl Read for ScriptedFile<'_> {
    fn read(&mut self, buffer: &mut [u8]) -> io::Result<usize> {
        called(self.script)?;
        self.file.read(buffer)
    }
}

impl Write for ScriptedFile<'_> {
    // It takes half of a new file at a time.
    fn write(&mut self, piece: &[u8]) -> io::Result<usize> {
        called(self.script)?;
        self.file.write(&piece[..piece.len().min(4_096)])
    }

    fn flush(&mut self) -> io::Result<()> {
        Ok(())
    }
}

impl Seek for ScriptedFile<'_> {
    fn seek(&mut self, to: SeekFrom) -> io::Result<u64> {
        called(self.script)?;
        self.file.seek(to)
    }
}

impl OpenFile for ScriptedFile<'_> {
    fn metadata(&self) -> io::Result<Metadata> {
        called(self.script)?;
        self.file.metadata()
    }

    fn set_len(&self, size: u64) -> io::Result<()> {
        called(self.script)?;
        self.file.set_len(size)
    }

    fn sync_all(&self) -> io::Result<()> {
        called(self.script)?;
        let mut now = self.script.get();
        now.whole_syncs = now.whole_syncs.wrapping_add(1);
        self.script.set(now);
        self.file.sync_all()
    }

    fn sync_data(&self) -> io::Result<()> {
        called(self.script)?;
        self.file.sync_data()
    }
}

impl SystemFile for ScriptedFile<'_> {
    fn try_lock(&self) -> io::Result<()> {
        called(self.script)?;
        SystemFile::try_lock(&self.file)
    }

    fn size(&self) -> io::Result<u64> {
        called(self.script)?;
        self.file.size()
    }

    fn read_at(&self, at: u64, buffer: &mut [u8]) -> io::Result<()> {
        called(self.script)?;
        SystemFile::read_at(&self.file, at, buffer)
    }

    fn write_at(&mut self, at: u64, bytes: &[u8]) -> io::Result<()> {
        called(self.script)?;
        SystemFile::write_at(&mut self.file, at, bytes)
    }

    fn sync(&mut self) -> io::Result<()> {
        called(self.script)?;
        let mut now = self.script.get();
        now.syncs = now.syncs.wrapping_add(1);
        self.script.set(now);
        self.file.sync()
    }
}

impl<'a> Files for Scripted<'a> {
    type File = ScriptedFile<'a>;

    type Dir = <HostRuntime as Files>::Dir;

    fn open_file(&self, how: &OpenOptions, path: &str) -> io::Result<ScriptedFile<'a>> {
        called(self.script)?;
        if self.script.get().is_read_only && how.asks_write() {
            return Err(Error::from(ErrorKind::ReadOnlyFilesystem));
        }
        Ok(ScriptedFile {
            file: self.rt.open_file(how, path)?,
            script: self.script,
        })
    }

    fn open_dir(&self, path: &str) -> io::Result<Self::Dir> {
        self.rt.open_dir(path)
    }

    fn metadata(&self, path: &str) -> io::Result<Metadata> {
        called(self.script)?;
        self.rt.metadata(path)
    }

    fn symlink_metadata(&self, path: &str) -> io::Result<Metadata> {
        called(self.script)?;
        if self.script.get().is_late {
            return Err(Error::from(ErrorKind::NotFound));
        }
        self.rt.symlink_metadata(path)
    }

    fn copy(&self, from: &str, to: &str) -> io::Result<u64> {
        self.rt.copy(from, to)
    }

    fn rename(&self, from: &str, to: &str) -> io::Result<()> {
        called(self.script)?;
        self.rt.rename(from, to)
    }

    fn remove_file(&self, path: &str) -> io::Result<()> {
        called(self.script)?;
        self.rt.remove_file(path)
    }

    fn create_dir(&self, path: &str) -> io::Result<()> {
        self.rt.create_dir(path)
    }

    fn remove_dir(&self, path: &str) -> io::Result<()> {
        self.rt.remove_dir(path)
    }

    fn remove_dir_all<B: Allocator>(&self, alloc: B, path: &str) -> io::Result<()> {
        self.rt.remove_dir_all(alloc, path)
    }

    fn hard_link(&self, original: &str, link: &str) -> io::Result<()> {
        called(self.script)?;
        self.rt.hard_link(original, link)
    }
}

fn count(failed: bool) -> u64 {
    if failed { 1 } else { 0 }
}

// Makes each call of a disk. It gives how many of them failed.
fn failed_calls<R: Files + Drop>(disk: &mut FileDisk<R>) -> u64
where
    R::File: SystemFile,
{
    let len = count(!matches!(disk.len(), Ok(8_192)));
    let write = count(disk.write_at(8_190, b"abcd").is_err());
    let sync = count(disk.sync().is_err());
    let read = count(disk.read(8_190, &mut [0; 2]).is_err());
    len.wrapping_add(write)
        .wrapping_add(sync)
        .wrapping_add(read)
}

fn failures_on<R: Files + Drop>(host: HostRuntime, disk: &mut FileDisk<R>, home: &str) -> u64
where
    R::File: SystemFile,
{
    if disk.attach(host.alloc(), home).is_err() {
        1
    } else {
        failed_calls(disk)
    }
}

// Attaches the home and makes each call of a disk. It gives how many of them failed, where the disk
// counted as many.
fn failures_of(host: HostRuntime, script: &Cell<Script>, home: &str) -> Option<u64> {
    let mut disk = FileDisk::new(Scripted { rt: host, script });
    let failed = failures_on(host, &mut disk, home);
    if disk.faults() == failed {
        Some(failed)
    } else {
        None
    }
}

// What is in the home where the call of each number fails.
const LEFT: [&str; 17] = [
    "",
    "",
    "",
    "",
    "",
    "",
    "",
    "",
    "",
    "rows.wtd rows.wtd.0 ",
    "rows.wtd ",
    "rows.wtd ",
    "rows.wtd ",
    "rows.wtd ",
    "rows.wtd ",
    "rows.wtd ",
    "rows.wtd ",
];

fn script_failing(number: usize) -> Cell<Script> {
    let mut script = NO_FAILURE;
    script.failing = number as u64;
    Cell::new(script)
}

fn check_call(rt: &impl Abort, host: HostRuntime, number: usize, left: &str) {
    let home = folder(rt, host, "each");
    let failures = failures_of(host, &script_failing(number), home.as_str());
    assert!(rt; matches!(failures, Some(1)), "at call {number}");
    check_names(rt, host, home.as_str(), left);
}

fn check_counts(rt: &impl Abort, script: &Cell<Script>) {
    let script = script.get();
    assert!(rt; script.calls == 17);
    assert!(rt; script.syncs == 1);
    assert!(rt; script.whole_syncs == 2);
}

fn check_no_call(rt: &impl Abort, host: HostRuntime, script: &Cell<Script>) {
    let home = folder(rt, host, "each");
    assert!(rt; matches!(failures_of(host, script, home.as_str()), Some(0)));
    check_counts(rt, script);
    remove(rt, host, home.as_str());
}

// A new home takes 17 calls: the folder is looked at, opened and locked; the name is looked for; a
// file is made, written in two parts and synced, gets its name and loses the other; it is opened and
// locked; the folder is synced. Then the disk asks the length, writes, syncs and reads.
#[test]
fn each_call_of_the_system_that_fails_is_one_fault(rt: HostRuntime) {
    for (number, left) in LEFT.iter().enumerate() {
        check_call(&rt, rt, number, left);
    }
    check_no_call(&rt, rt, &Cell::new(NO_FAILURE));
}

fn check_calls(rt: &impl Abort, script: &Cell<Script>, wanted: u64) {
    assert!(rt; script.get().calls == wanted);
}

// The next call fails.
fn fail_next(script: &Cell<Script>) {
    let mut now = script.get();
    now.failing = now.calls;
    script.set(now);
}

fn check_growth<R: Files + Drop>(rt: &impl Abort, disk: &mut FileDisk<R>)
where
    R::File: SystemFile,
{
    check_len(rt, disk, 8_192);
    check_written(rt, disk, 8_190, b"abcd");
    check_synced(rt, disk);
    check_len(rt, disk, 8_194);
}

fn check_no_growth<R: Files + Drop>(rt: &impl Abort, disk: &mut FileDisk<R>)
where
    R::File: SystemFile,
{
    check_not_written(rt, disk, 8_194, b"efgh");
    check_len(rt, disk, 8_194);
    check_len(rt, disk, 8_194);
}

fn check_lengths<R: Files + Drop>(rt: &impl Abort, script: &Cell<Script>, disk: &mut FileDisk<R>)
where
    R::File: SystemFile,
{
    check_growth(rt, disk);
    check_calls(rt, script, 10);
    fail_next(script);
    check_no_growth(rt, disk);
    check_calls(rt, script, 12);
    check_faults(rt, disk, 1);
}

// Of a file that was there: the folder, the name, the file, and a sync of the folder.
fn check_opened(rt: &impl Abort, script: &Cell<Script>) {
    check_calls(rt, script, 7);
    assert!(rt; script.get().whole_syncs == 1);
}

fn check_asked(rt: &impl Abort, host: HostRuntime, script: &Cell<Script>, home: &str) {
    let mut disk = FileDisk::new(Scripted { rt: host, script });
    check_attached(rt, host, &mut disk, home);
    check_opened(rt, script);
    check_lengths(rt, script, &mut disk);
}

#[test]
fn the_length_is_asked_once_and_after_a_failure(rt: HostRuntime) {
    let home = folder(&rt, rt, "length");
    assert!(rt; make_file(rt, home.as_str()));
    check_asked(&rt, rt, &Cell::new(NO_FAILURE), home.as_str());
    remove(&rt, rt, home.as_str());
}

// Makes the file of this home.
fn make_file(host: HostRuntime, home: &str) -> bool {
    let mut disk = FileDisk::new(host);
    disk.attach(host.alloc(), home).is_ok()
}

fn read_only() -> Cell<Script> {
    let mut script = NO_FAILURE;
    script.is_read_only = true;
    Cell::new(script)
}

// A home without a file.
fn check_no_file(rt: &impl Abort, host: HostRuntime, script: &Cell<Script>, home: &str) {
    let mut disk = FileDisk::new(Scripted { rt: host, script });
    check_unattached(rt, host, &mut disk, home);
}

fn check_read<R: Files + Drop>(rt: &impl Abort, disk: &mut FileDisk<R>)
where
    R::File: SystemFile,
{
    let mut bytes = [1; 4];
    assert!(rt; disk.read(0, &mut bytes).is_ok());
    assert!(rt; bytes == [0; 4]);
    check_len(rt, disk, 8_192);
}

fn check_no_write<R: Files + Drop>(rt: &impl Abort, disk: &mut FileDisk<R>)
where
    R::File: SystemFile,
{
    check_faults(rt, disk, 0);
    check_not_written(rt, disk, 0, b"a");
    check_faults(rt, disk, 1);
}

fn check_read_only<R: Files + Drop>(
    rt: &impl Abort,
    host: HostRuntime,
    disk: &mut FileDisk<R>,
    home: &str,
)
where
    R::File: SystemFile,
{
    check_attached(rt, host, disk, home);
    assert!(rt; is_refused(host, home));
    check_read(rt, disk);
    check_no_write(rt, disk);
}

fn check_file(rt: &impl Abort, host: HostRuntime, script: &Cell<Script>, home: &str) {
    let mut disk = FileDisk::new(Scripted { rt: host, script });
    check_read_only(rt, host, &mut disk, home);
}

#[test]
fn a_read_only_home_can_be_read(rt: HostRuntime) {
    let home = folder(&rt, rt, "read_only");
    let script = read_only();
    check_no_file(&rt, rt, &script, home.as_str());
    assert!(rt; make_file(rt, home.as_str()));
    check_file(&rt, rt, &script, home.as_str());
    remove(&rt, rt, home.as_str());
}

fn late() -> Cell<Script> {
    let mut script = NO_FAILURE;
    script.is_late = true;
    Cell::new(script)
}

fn check_late(rt: &impl Abort, host: HostRuntime, script: &Cell<Script>, home: &str) {
    let mut disk = FileDisk::new(Scripted { rt: host, script });
    check_unattached(rt, host, &mut disk, home);
    check_faults(rt, &disk, 1);
}

#[test]
fn a_file_that_is_made_meanwhile_is_not_replaced(rt: HostRuntime) {
    let home = folder(&rt, rt, "meanwhile");
    let path = path_in(&rt, rt, home.as_str(), "rows.wtd");
    write_file(&rt, rt, path.as_str(), "mine");
    check_late(&rt, rt, &late(), home.as_str());
    check_text(&rt, rt, path.as_str(), "mine");
    check_names(&rt, rt, home.as_str(), "rows.wtd ");
    remove(&rt, rt, home.as_str());
}
