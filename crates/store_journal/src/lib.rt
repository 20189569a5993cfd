//! A store's commits in a file: a disk that says what a crash may leave, and records on it.
#![tactic(auto)]

mod call;
mod disk;
mod faults;
mod file_disk;
mod gate;
mod judging;
mod kept;
mod kept_commit;
mod kept_record;
mod kept_store;
mod laws;
mod memory_disk;
mod overwriting;
mod payload;
mod reading;
mod record;
mod walk;

pub use call::Call;
pub use disk::Disk;
pub use faults::{KeepFault, RecoverFault};
pub use file_disk::FileDisk;
pub use kept::Kept;
pub use kept_commit::Commit;
pub use kept_store::KeptStore;
pub use laws::{images_have_the_commits, payloads_say_commits};
pub use memory_disk::MemoryDisk;
