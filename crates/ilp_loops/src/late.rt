//! A Fulfill of which its sender is told late.

use ilp_accounts::Config;
use ilp_desk::Naming;
use ilp_notices::SentHold;
use ilp_server::Deed;
use ilp_shared::Shared;
use ilp_workers::HeldPrepare;
use std::io::Eprint;
use std::time;

/// By when the sender of a packet is to be told its Fulfill, and by what its hold is found.
#[derive(Clone, Copy)]
pub(crate) struct ToldBy {
    sender: u32,
    // When its Prepare expires, or before, where the longest hold ended sooner; milliseconds since 1970.
    moment: i64,
    hold: SentHold,
}

impl ToldBy {
    /// That of a Prepare which is held.
    pub(crate) fn of(config: &Config, prepare: &HeldPrepare) -> ToldBy {
        let held = prepare.held;
        ToldBy {
            sender: prepare.from,
            moment: held.deadline.saturating_add(i64::from(config.window_ms())),
            hold: SentHold::new(held.number, held.out, &prepare.condition),
        }
    }

    /// Tells an operator where the sender is told a Fulfill now, and that is late.
    pub(crate) fn tell_late<J: Naming, R: time::Clock + Eprint>(
        self,
        shared: &Shared<'_, J, R>,
        deed: Deed,
        now: i64,
    ) {
        if now < self.moment {
            return;
        }
        match deed {
            Deed::Nothing => shared.notices.fulfill_late(
                shared.rt,
                shared.desk.config(),
                self.sender,
                self.hold,
                now.abs_diff(self.moment),
            ),
            _ => {}
        }
    }
}
