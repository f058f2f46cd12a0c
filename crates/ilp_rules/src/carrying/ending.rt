//! The ends of the holds that are open where a journal ends.
ghost use Rattle.std.specs.Prelude.{◌≡◌, ℕ, pos, ◌≤ℤ◌, None};
ghost use Rattle.ilp_terms.specs.Expiry.{last_of_all};
ghost use Rattle.ilp_journal.specs.Journal.{last_moment, open_hold_at};
ghost use Rattle.ilp_rules.specs.Book.{extended, moment_at};
ghost use Rattle.ilp_rules.specs.Carried.{end_of, ends_of_open};
ghost use Rattle.ilp_rules.specs.Lawful.{IsLawful};

use super::Carrying;
use crate::holds::open_hold_at;
use crate::moments::moment_at;
use ilp_journal::{Cause, Entry, What};
use std::alloc::Allocator;

impl<A: Allocator> Carrying<A> {
    /// Ends each open hold, in the order of their numbers: as Late where its deadline has come, and
    /// else because the connector starts again. It takes no memory, and goes over the entries once.
    pub(crate) fn end_holds(&mut self, now: i64)
        ensures ends { self.new ≡ extended self.old
            (ends_of_open (moment_at self.old.entries now) self.old.entries) }
        ensures ended { (n : ℕ) → open_hold_at self.new.entries n ≡ None }
        ensures lawful { IsLawful self.old }
    {
        let moment = moment_at(&self.journal, now);
        let count = self.journal.len();
        for number in 0..count {
            self.end_hold(number, moment);
        }
    }

    // Ends the hold of this number, if it is open.
    fn end_hold(&mut self, number: u32, moment: i64)
        requires later { last_moment self.old.entries ≤ℤ moment }
        requires first { pos 0 ≤ℤ moment }
        requires last { moment ≤ℤ last_of_all }
        ensures { self.new ≡ extended self.old (end_of moment self.old.entries number) }
    {
        let Some(hold) = open_hold_at(&self.journal, number) else {
            return;
        };
        let cause = if hold.deadline <= moment {
            Cause::Late
        } else {
            Cause::Restart
        };
        let what = What::Released {
            hold: number,
            cause,
        };
        self.close(Entry {
            moment,
            actor: 0,
            what,
        });
    }
}
