//! Tests over real sockets: the links, and the running connector.
//!
//! - `serve` over the built-in configuration: two packets at once, an engine's account, a credit, a
//!   settlement, the close and the report, all octet for octet.
//! - `serve` beside a peer that takes packets and says nothing: another packet waits for its turn,
//!   while a settlement, a refused request with a quarter of a megabyte of its body on the way, and
//!   the close are answered; then both packets are, and the report is printed.
//! - `a_hold_that_is_swept`: `serve` beside a peer that fulfills a packet once the report says that
//!   its hold is over: the sweeper's thread released it, and the sender gets R00.
//! - `serve` beside an engine that says nothing of the first of two open settlements: it is asked
//!   for the other, and then for the first again under its key.
//! - `serve` whose payouts to bob are paused and go on: both are answered, and the report says in between
//!   whose are paused.
//! - `serve` whose operator corrects bob's balance: a fall, the same again, two others under its key, one that
//!   is too much, two that are none, and a rise.
//! - The links, with stand-ins for peers and engines: requests octet for octet; what responses come
//!   to, one that is too long among them; peers and engines that aren't there, aren't configured or
//!   have no `IP:PORT`; a deadline that is over; reads that end by their moment, writes to a closed
//!   connection, which raise no signal; the system's clock; no wait for an engine once the
//!   connector ends.
//! - Lines on standard error: their time and level; when they come again over minutes, and what is
//!   over; Rejects after a minute; a journal that fills; who waits for whom.
#![tactic(auto)]

#[cfg(test)]
mod tests;
