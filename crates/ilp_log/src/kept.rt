//! What one is told whose entries are on the disk.

use crate::ack::Ack;
use ilp_grown_list::{ListNaming, Seen};
use ilp_line_file::{Device, LineFile};
use std::marker::Model;

/// Was told that lines are on the disk. To a contract it is what was told.
#[derive(Drop)]
pub struct Kept<D: Device, K: ListNaming> {
    pub(crate) seen: Seen<LineFile<D>, Ack, K>,
}

impl<D: Device, K: ListNaming> Model for Kept<D, K> {
    ghost use Rattle.std.specs.Prelude.{◌≡◌, List, ◌∷◌, [], ◌++◌};
    ghost use Rattle.ilp_log.specs.declared.ack.Ack.{Ack};
    ghost use Rattle.ilp_log.specs.Log.{last_ack};

    ghost Value = { Ack };

    ghost view = { λ k. last_ack k.seen };

    ghost invariant = { λ k. (before : List Ack) × (k.seen ≡ before ++ (last_ack k.seen) ∷ []) };
}
