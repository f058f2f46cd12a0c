//! Why a row is not read.

use std::alloc::AllocError;
use std::io;

/// Why nothing is told of a row.
#[derive(Clone, Copy)]
pub enum RowFault {
    /// The row says what no row says, or is to replace lines that its text doesn't have.
    NotUnderstood,
    /// A growth of memory was denied.
    Memory,
}

impl From<AllocError> for RowFault {
    fn from(_e: AllocError) -> RowFault {
        RowFault::Memory
    }
}

impl RowFault {
    /// Prints the name of a row that is not understood. Want of memory ends the program.
    pub fn print(self, rt: &impl Print, name: &str) -> io::Result<()> {
        match self {
            RowFault::NotUnderstood => println!(rt; "row not understood: {name}"),
            RowFault::Memory => Err(io::Error::from(AllocError)),
        }
    }
}
