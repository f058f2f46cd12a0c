//! What the rows of a statement come to.
ghost use Rattle.std.specs.Prelude.{◌≡◌, ◌≢◌, ℕ, map, Some, slice_get};
ghost use Rattle.ilp_statement_text.specs.Totals.{Counts, every_kind, no_rows_of};

use ilp_statement::Kind;

/// How many rows there are of a kind, and the sum of their amounts in units of the peer's asset. A journal has fewer
/// than 2^32 entries, of 64 bits each, so neither comes to its end.
#[derive(Clone, Copy, Debug, PartialEq, Eq)]
pub(crate) struct Total {
    pub(crate) kind: Kind,
    pub(crate) count: u32,
    pub(crate) sum: i128,
}

impl Total {
    // That of no rows.
    fn of(kind: Kind) -> Total
        ensures { result ≡ no_rows_of kind }
    {
        Total {
            kind,
            count: 0,
            sum: 0,
        }
    }

    // Counts a row of a kind and an amount, where it is of this kind.
    fn count(&mut self, kind: Kind, amount: i128)
        ensures counted { self.old.kind ≡ kind → Counts amount self.old self.new }
        ensures other { self.old.kind ≢ kind → self.new ≡ self.old }
    {
        if self.kind == kind {
            self.add(amount);
        }
    }

    // Counts one more, of this amount.
    fn add(&mut self, amount: i128)
        ensures { Counts amount self.old self.new }
    {
        self.count = self.count.saturating_add(1);
        self.sum = self.sum.saturating_add(amount);
    }
}

/// A total of each kind.
#[derive(Clone, Copy)]
pub(crate) struct Totals(pub(crate) [Total; 11]);

impl Totals {
    /// Those of no rows.
    pub(crate) fn new() -> Totals
        ensures { result.0 ≡ map no_rows_of every_kind }
    {
        Totals([
            Total::of(Kind::Opened),
            Total::of(Kind::Sent),
            Total::of(Kind::Paid),
            Total::of(Kind::Returned),
            Total::of(Kind::Received),
            Total::of(Kind::Refused),
            Total::of(Kind::Credited),
            Total::of(Kind::Corrected),
            Total::of(Kind::Asked),
            Total::of(Kind::Confirmed),
            Total::of(Kind::Undone),
        ])
    }

    /// Counts a row of a kind and an amount.
    pub(crate) fn add(&mut self, kind: Kind, amount: i128)
        ensures counted { (n : ℕ) (old new : Total) → slice_get self.old.0 n ≡ Some old
            → slice_get self.new.0 n ≡ Some new → old.kind ≡ kind → Counts amount old new }
        ensures others { (n : ℕ) (old : Total) → slice_get self.old.0 n ≡ Some old
            → old.kind ≢ kind → slice_get self.new.0 n ≡ Some old }
    {
        for total in self.0.iter_mut() {
            total.count(kind, amount);
        }
    }
}
