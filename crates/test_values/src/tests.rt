//! Values of the lower crates' calls, crate by crate.

mod allocator;
mod assets;
mod fields;
mod io;
mod journal;
mod lookup;
mod oer;
mod packet;
mod terms;
