//! The file of a store as a disk: `rows.wtd` in the home folder, on the system's files.
//!
//! It promises what `Disk` and `Home` say of a disk that is not honest: a call answers `Failed`
//! exactly where the count of faults rose, and the capacity is told. It hands on what the file tells:
//! where a file tells its bytes, `len`, `read`, `write_at` and `sync` are proved to answer them and
//! to change them. A file of the system tells none: what it holds, and what of it stays after a
//! crash, is the system's; that it does as the disk model says is a premise of whoever claims more.
#![tactic(auto)]

mod disk;
mod place;
mod system_file;

pub use disk::FileDisk;
pub use system_file::SystemFile;
