//! A list that grows, and those who have seen a beginning of it.
ghost use Rattle.std.specs.Prelude.{◌≡◌, [], List, IfOk};
ghost use mathlib.Core.List.{IsPrefix};
ghost use Rattle.atomic_table.specs.Seated.{TableId};

use crate::law::{Checks, Grows, Law, ListNaming, SoFar, Tells, View};
use atomic_table::{Seat, Table};
use std::alloc::{AllocError, Global};
use std::marker::{Model, PhantomData};
use std::mem;

/// A new list, which is empty and has no name yet. To a contract it is its name.
#[derive(Drop)]
pub struct NewList<S: Drop, E> {
    table: Table<S, View<E>, (), Law<E>, Global>,
    seat: Seat<S, View<E>>,
}

impl<S: Drop, E> Model for NewList<S, E> {
    ghost use Rattle.std.specs.Prelude.{◌≡◌, []};
    ghost use Rattle.atomic_table.specs.Seated.{TableId, table_id_coded};

    ghost Value = { TableId };

    ghost coded = { table_id_coded };

    ghost use Rattle.ilp_grown_list.specs.Grown.{knower};

    ghost view = { λ l. l.table.shared.table_id };

    ghost invariant = { λ l. (l.table.shared.table_id.words ≡ 1)
        × (l.seat.table_id ≡ l.table.shared.table_id) × (l.seat.me ≡ (knower [], [])) };
}

impl<S: Drop, E> NewList<S, E> {
    /// A list of its own. It is refused only where memory is denied.
    pub fn new(alloc: Global) -> Result<NewList<S, E>, AllocError> {
        let (table, seat) = Table::of_words(alloc, &[0], &())?;
        Ok(NewList { table, seat })
    }

    /// The list under a name.
    pub fn named<J: ListNaming>(self) -> GrownList<S, E, J>
        requires { self ≡ J.table }
        ensures { result ≡ [] }
    {
        let NewList { table, seat } = self;
        GrownList {
            table,
            seat,
            of: PhantomData,
        }
    }
}

/// A list that only grows, which this one value keeps. To a contract it is the list.
#[derive(Drop)]
pub struct GrownList<S: Drop, E, J: ListNaming> {
    table: Table<S, View<E>, (), Law<E>, Global>,
    seat: Seat<S, View<E>>,
    of: PhantomData<J>,
}

impl<S: Drop, E, J: ListNaming> Model for GrownList<S, E, J> {
    ghost use Rattle.std.specs.Prelude.{◌≡◌, List, []};
    ghost use Rattle.std.specs.Coded.{coded_list};
    ghost use Rattle.ilp_grown_list.specs.Grown.{knower};

    ghost Value = { List E };

    ghost coded = { coded_list E.code };

    ghost view = { λ l. l.seat.me.0.all };

    ghost invariant = { λ l. (l.table.shared.table_id ≡ J.table) × (J.table.words ≡ 1)
        × (l.seat.table_id ≡ J.table) × (l.seat.me ≡ (knower l.seat.me.0.all, [])) };
}

/// A token of one who has seen a beginning of a list. To a contract it is that beginning.
#[derive(Drop)]
pub struct Seen<S, E, J: ListNaming> {
    seat: Seat<S, View<E>>,
    of: PhantomData<J>,
}

impl<S, E, J: ListNaming> Model for Seen<S, E, J> {
    ghost use Rattle.std.specs.Prelude.{◌≡◌, List, []};
    ghost use Rattle.std.specs.Coded.{coded_list};
    ghost use Rattle.ilp_grown_list.specs.Grown.{seer};

    ghost Value = { List E };

    ghost coded = { coded_list E.code };

    ghost view = { λ s. s.seat.me.0.claim };

    ghost invariant = { λ s. (s.seat.table_id ≡ J.table)
        × (s.seat.me ≡ (seer s.seat.me.0.claim, [])) };
}

impl<S: Drop, E, J: ListNaming> GrownList<S, E, J> {
    /// The list becomes what is told, which goes on from what it was.
    pub fn grow<T: Tells<S, E>>(&mut self, said: &S)
        requires { IsPrefix self.old (T.told self.old said.now) }
        ensures { self.new ≡ T.told self.old said.now }
    {
        let table = &self.table;
        table
            .shared
            .compare_exchange_with::<Grows<T>>(&mut self.seat, 0, 0, 0, said);
    }

    /// A token of all of the list so far.
    pub fn seen(&mut self) -> Seen<S, E, J>
        ensures all { result ≡ self.old }
        ensures same { self.new ≡ self.old }
    {
        let table = &self.table;
        let seat = table.shared.split_seat::<SoFar>(&mut self.seat);
        Seen {
            seat,
            of: PhantomData,
        }
    }

    /// Finds that what was seen is a beginning of the list.
    pub fn check(&mut self, seen: Seen<S, E, J>)
        ensures begins { IsPrefix seen self.old }
        ensures same { self.new ≡ self.old }
    {
        let Seen { seat, of: _ } = seen;
        let table = &self.table;
        table.shared.join_seat::<SoFar>(&mut self.seat, seat);
        table.shared.load::<Checks>(&mut self.seat, 0);
    }

    /// Shows the list so far to one who had seen a beginning of it.
    pub fn show(&mut self, seen: &mut Seen<S, E, J>)
        ensures begins { IsPrefix seen.old self.old }
        ensures seen { seen.new ≡ self.old }
        ensures same { self.new ≡ self.old }
    {
        let now = self.seen();
        let before = mem::replace(seen, now);
        self.check(before);
    }
}
