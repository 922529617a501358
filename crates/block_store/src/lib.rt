//! Places that keep blocks of 64 bytes, one for each row, and may fail.
//!
//! A write changes one block. A call that fails changes none, and raises the store's count of faults.
#![tactic(auto)]

pub mod failing;
pub mod file;
pub mod memory;
pub mod store;

pub use failing::FailingStore;
pub use file::FileStore;
pub use memory::MemoryStore;
pub use raid_base::{Failed, NoMemory, RowNo};
pub use store::Store;
