//! The open settlements to one peer.
ghost use Rattle.std.specs.Prelude.{◌≡◌, ◌<◌, [], ◌∷◌, ◌++◌, length, filter, not, ◌==◌};
ghost use Rattle.std.specs.List.{find};
ghost use Rattle.ilp_journal.specs.Journal.{is_behind};
ghost use Rattle.ilp_tallies.specs.declared.open_asks.TheConstants.{MOST_OPEN};

use std::marker::Model;

/// How many settlements to one peer may be open at once.
pub const MOST_OPEN: usize = 4;

/// The numbers of the open settlements to a peer, in the order in which they were asked for.
#[derive(Drop)]
pub(crate) struct OpenAsks {
    numbers: [u32; MOST_OPEN],
    count: usize,
}

impl Model for OpenAsks {
    ghost use Rattle.std.specs.Prelude.{ℕ, List, ◌≤◌, take};
    ghost use Rattle.ilp_tallies.specs.declared.open_asks.TheConstants.{MOST_OPEN};

    ghost Value = { List ℕ };

    ghost view = { λ a. take a.count a.numbers };

    ghost invariant = { λ a. a.count ≤ MOST_OPEN };
}

impl OpenAsks {
    /// No open settlement.
    pub(crate) fn new() -> OpenAsks
        ensures { result ≡ [] }
    {
        OpenAsks {
            numbers: [0; MOST_OPEN],
            count: 0,
        }
    }

    /// How many are open.
    pub(crate) fn len(&self) -> u32
        ensures { result ≡ length self.now }
    {
        self.count as u32
    }

    /// The first one whose number lies behind this one, or of all.
    pub(crate) fn next(&self, after: Option<u32>) -> Option<u32>
        ensures { result ≡ find (is_behind after) self.now }
    {
        first_behind(&self.numbers[..self.count], after)
    }

    /// Adds the number of a settlement that is asked for.
    pub(crate) fn push(&mut self, number: u32)
        requires { length self.old < MOST_OPEN }
        ensures { self.new ≡ self.old ++ number ∷ [] }
    {
        self.numbers[self.count] = number;
        self.count += 1;
    }

    /// All but the settlement of this number.
    pub(crate) fn without(&self, closed: u32) -> OpenAsks
        ensures { result ≡ filter (λ number. not (number == closed)) self.now }
    {
        let mut left = OpenAsks::new();
        for place in 0..self.count {
            let number = self.numbers[place];
            if number != closed {
                left.push(number);
            }
        }
        left
    }
}

// The first of these numbers that lies behind this one, or of all.
fn first_behind(numbers: &[u32], after: Option<u32>) -> Option<u32>
    ensures { result ≡ find (is_behind after) numbers.now }
{
    numbers
        .iter()
        .find(|number| lies_behind(after, **number))
        .copied()
}

// Whether a number lies behind another, where there is one.
fn lies_behind(after: Option<u32>, number: u32) -> bool
    ensures { result ≡ is_behind after number }
{
    match after {
        Some(after) => after < number,
        None => true,
    }
}
