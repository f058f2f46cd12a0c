//! What is in flight and who is closed, each beside a plain model.

mod closing;
mod flights;
mod plain;
