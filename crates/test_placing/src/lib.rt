//! A system in memory whose files are devices.
//!
//! # What is proved
//!
//! - `DeviceFiles` meets each clause of `ilp_journal_file::PlacesFiles`, and claims to where its devices do: so all of
//!   them can be met, by `TearingFile` with files that lose what was not kept.
#![tactic(auto)]

mod device_files;
mod new_device;

pub use device_files::{DeviceFiles, StoredFile};
pub use new_device::NewDevice;
