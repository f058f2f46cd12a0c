//! The rule of a list that only grows, and what the steps on it tell.
ghost use Rattle.std.specs.Prelude.{List};
ghost use Rattle.atomic_table.specs.Seated.{TableId};

use atomic_table::{Join, Play, Split, TableRule};
use std::collections::LinkedList;
use std::marker::{Brand, PhantomData};

/// Which list it is. Whoever calls a function with such a parameter picks it, once it has the list.
pub trait ListNaming {
    ghost use Rattle.atomic_table.specs.Seated.{TableId};

    /// The list's name.
    ghost table: { TableId };
}

impl ListNaming for Brand {
    ghost use Rattle.ilp_grown_list.specs.Grown.{no_table};

    ghost table = { no_table };
}

/// How a value of `S` tells what a list of `E` has become.
pub trait Tells<S, E> {
    ghost use Rattle.std.specs.Prelude.{List};

    /// The list after it, by the list before.
    ghost told: { List E → S → List E };
}

// What a seat knows: the keeper all of the list, and each one a beginning. No value of it is made.
pub struct View<E> {
    pub keeps: bool,
    pub all: LinkedList<E>,
    pub claim: LinkedList<E>,
}

// The rule of such a list.
pub struct Law<E>(PhantomData<E>);

impl<S, E> TableRule<S, View<E>, ()> for Law<E> {
    ghost use Rattle.std.specs.Prelude.{[]};
    ghost use Rattle.ilp_grown_list.specs.Grown.{AreOfOneList, knower};

    ghost holds = { λ _ s. AreOfOneList s.views };

    ghost first = { λ _. knower [] };
}

// The keeper's list becomes what is told.
pub struct Grows<T>(PhantomData<T>);

impl<S, E, T: Tells<S, E>> Play<S, View<E>> for Grows<T> {
    ghost use Rattle.ilp_grown_list.specs.Grown.{Grew};

    ghost then = { λ s v n w. Grew T.told s.said v w };
}

// The keeper compares what another has seen with the list.
pub struct Checks;

impl<S, E> Play<S, View<E>> for Checks {
    ghost use Rattle.ilp_grown_list.specs.Grown.{Checked};

    ghost then = { λ s v n w. Checked v w };
}

// One that has seen the list so far.
pub struct SoFar;

impl<E> Split<View<E>> for SoFar {
    ghost use Rattle.ilp_grown_list.specs.Grown.{seer};

    ghost left = { λ v. v };

    ghost right = { λ v. seer v.all };
}

impl<E> Join<View<E>> for SoFar {
    ghost use Rattle.std.specs.Prelude.{[]};
    ghost use Rattle.ilp_grown_list.specs.Grown.{seer, shown};

    ghost both = { shown };

    ghost spent = { seer [] };
}
