//! Clocks that tell the moments of a scene.

ghost use Rattle.std.specs.Prelude.{◌≡◌, [], ◌∷◌, ◌++◌, IfSome, IsSomeAnd};

use ilp_workers::Clock;
use std::alloc::Global;

/// A clock that stands still at this moment, in milliseconds since 1970.
#[derive(Drop)]
pub(crate) struct Still(pub(crate) i64);

impl Clock for Still {
    fn now(&mut self) -> i64 {
        self.0
    }
}

/// A clock that tells one moment, and another from then on, and prints them. It notes them as well,
/// for as long as there is memory.
#[derive(Drop)]
pub(crate) struct TwoMoments<'a, R: Print> {
    rt: &'a R,
    next: i64,
    later: i64,
    told: Option<Vec<i64>>,
}

impl<'a, R: Print> TwoMoments<'a, R> {
    /// A clock that tells the first moment once, and then the second.
    pub(crate) fn new(rt: &'a R, alloc: Global, (next, later): (i64, i64)) -> TwoMoments<'a, R> {
        TwoMoments {
            rt,
            next,
            later,
            told: Some(Vec::new(alloc)),
        }
    }
}

impl<R: Print> Clock for TwoMoments<'_, R> {
    ghost use Rattle.std.specs.Prelude.{option_map};
    ghost use Rattle.std.specs.declared.vec.Vec.{Vec};

    ghost told = { λ clock. option_map (λ told. told.items) clock.told };

    fn now(&mut self) -> i64 {
        let moment = self.next;
        self.next = self.later;
        self.told = one_more(self.told.take(), moment);
        let _ = println!(self.rt; "the clock tells {moment}");
        moment
    }
}

// One moment more, if there is memory for it and was for those before.
fn one_more(told: Option<Vec<i64>>, moment: i64) -> Option<Vec<i64>>
    ensures { IfSome result (λ after. IsSomeAnd told (λ before.
        after.items ≡ before.items ++ moment ∷ [])) }
{
    let mut told = told?;
    match told.push(moment) {
        Ok(()) => Some(told),
        Err(_) => None,
    }
}
