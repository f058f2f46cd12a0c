//! A connector of which nothing lies on the disk but what its device writes.

use ilp_accounts::Config;
use ilp_threads::OnDisk;

/// Nowhere is a configuration read again, and no file is looked at.
#[derive(Clone, Copy)]
pub(crate) struct NothingOnDisk;

impl OnDisk for NothingOnDisk {
    fn read_again(&self, in_force: &Config) -> Result<Config, Option<String>> {
        let line = format!(in in_force.allocator();
            "this connector reads no configuration again\n"
        );
        Err(line.ok())
    }

    fn has_journal(&self) -> bool {
        true
    }

    fn has_log(&self) -> bool {
        true
    }
}
