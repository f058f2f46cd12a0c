//! The table of holds.
ghost use Rattle.std.specs.Prelude.{◌≡◌, ◌+◌, ◌<◌, ◌≤◌, ℕ, ℤ, ◌↔◌, Some, None, IsTrue, IsOk, IfOk, IsNone, IfSome, IfNone, OnSome, OnOk, OnErr};
ghost use Rattle.std.specs.FinMap as map;
ghost use Rattle.ilp_holds.specs.Due.{IsNoLater};

use crate::due::Due;
use crate::heap::{reorder, reorder_at};
use crate::index::{IndexRow, search};
use crate::members::{add, take_out};
use std::alloc::{AllocError, Allocator, Global};
use std::marker::Model;

/// Holds by their numbers, each with its deadline. The next one due is known at once.
///
/// To add or to take one takes no memory. With n holds it moves about log n of them at most in the
/// heap, each of which is looked up in the index. It shifts the rows of all higher numbers by one.
#[derive(Drop)]
pub struct HoldTable<A: Allocator = Global> {
    // A binary heap: none comes before the one above it, so the next one due stands first.
    heap: Vec<Due, A>,
    // Where in the heap each one stands, in the order of their numbers.
    index: Vec<IndexRow, A>,
    // For so many more, both have room.
    spare: usize,
}

impl<A: Allocator> Model for HoldTable<A> {
    ghost use Rattle.std.specs.Prelude.{◌+◌, ◌≤◌, vec_len, vec_capacity};
    ghost use Rattle.ilp_holds.specs.Table.{Table, table_code, deadlines};
    ghost use Rattle.ilp_holds.specs.Heap.{IsHeap};
    ghost use Rattle.ilp_holds.specs.Index.{IsIndexed, holds};

    ghost Value = { Table };

    ghost coded = { table_code };

    ghost view = { λ t. record {
      map = deadlines (holds t.heap.items t.index.items);
      spare = t.spare;
    } };

    ghost invariant = { λ t. record {
      order : IsHeap t.heap.items;
      indexed : IsIndexed t.heap.items t.index.items;
      heap_room : t.spare + vec_len t.heap ≤ vec_capacity t.heap;
      index_room : t.spare + vec_len t.index ≤ vec_capacity t.index;
    } };
}

impl<A: Allocator + Clone> HoldTable<A> {
    /// A table with no hold, and no room for any. `AllocError` tells that memory is short for
    /// another of this allocator.
    pub fn new(alloc: A) -> Result<HoldTable<A>, AllocError>
        ensures empty { IfOk result (λ table. table.map ≡ map.empty) }
        ensures spare { IfOk result (λ table. table.spare ≡ 0) }
    {
        let index = Vec::new(alloc.clone()?);
        Ok(HoldTable {
            heap: Vec::new(alloc),
            index,
            spare: 0,
        })
    }
}

impl<A: Allocator> HoldTable<A> {
    /// How many holds there are.
    pub fn len(&self) -> usize
        ensures { result ≡ map.len self.now.map }
    {
        self.index.len()
    }

    /// Whether there is no hold.
    pub fn is_empty(&self) -> bool
        ensures { IsTrue result ↔ (self.now.map ≡ map.empty) }
    {
        self.index.is_empty()
    }

    /// How many more holds fit without memory.
    pub fn spare(&self) -> usize
        ensures { result ≡ self.now.spare }
    {
        self.spare
    }

    /// The deadline of the hold of this number.
    pub fn get(&self, number: u32) -> Option<i64>
        ensures { result ≡ map.get self.now.map number }
    {
        let Ok(row) = search(&self.index, number) else {
            return None;
        };
        Some(self.heap[self.index[row].at].deadline)
    }

    /// The next one due: its deadline and its number. Of those with the same deadline it is the one
    /// of the lowest number.
    pub fn earliest(&self) -> Option<(i64, u32)>
        ensures none { IsNone result ↔ (self.now.map ≡ map.empty) }
        ensures member { IfSome result (λ first.
            map.get self.now.map first.1 ≡ Some first.0) }
        ensures least { IfSome result (λ first. (number : ℕ) (deadline : ℤ)
            → map.get self.now.map number ≡ Some deadline
            → IsNoLater first.0 first.1 deadline number) }
    {
        let first = self.heap.first()?;
        Some((first.deadline, first.number))
    }

    /// Makes room for `additional` more holds. `AllocError` tells that memory is short.
    pub fn reserve(&mut self, additional: usize) -> Result<(), AllocError>
        ensures map { self.new.map ≡ self.old.map }
        ensures ok { OnOk result (additional ≤ self.new.spare) }
        ensures kept { self.old.spare ≤ self.new.spare }

        // It takes memory only where that room is missing, and a refusal leaves all as it was.
        ensures enough { additional ≤ self.old.spare → IsOk result }
        ensures unmoved { additional ≤ self.old.spare → self.new ≡ self.old }
        ensures refused { OnErr result (self.old.spare < additional) }
        ensures err { OnErr result (self.new ≡ self.old) }
    {
        if additional <= self.spare {
            return Ok(());
        }
        self.heap.reserve(additional)?;
        self.index.reserve(additional)?;
        self.spare = additional;
        Ok(())
    }

    /// Adds a hold, into room that is there: `spare` tells whether it is. No hold of the table has
    /// this number yet.
    pub fn insert(&mut self, number: u32, deadline: i64)
        requires room { 1 ≤ self.old.spare }
        requires absent { map.get self.old.map number ≡ None }
        ensures map { self.new.map ≡ map.insert self.old.map number deadline }
        ensures used { self.new.spare + 1 ≡ self.old.spare }
    {
        let Err(row) = search(&self.index, number) else {
            unreachable!();
        };
        let at = add(
            &mut self.heap,
            &mut self.index,
            row,
            Due { deadline, number },
        );
        self.spare -= 1;
        reorder(&mut self.heap, &mut self.index, row, at);
    }

    /// Takes out the hold of this number and tells its deadline. `None` where there is none.
    pub fn take(&mut self, number: u32) -> Option<i64>
        ensures deadline { result ≡ map.get self.old.map number }
        ensures map { self.new.map ≡ map.remove self.old.map number }
        ensures none { IfNone result (self.new ≡ self.old) }
        ensures fewer { OnSome result (map.len self.new.map + 1 ≡ map.len self.old.map) }
        ensures freed { OnSome result (self.new.spare ≡ self.old.spare + 1) }
    {
        let Ok(row) = search(&self.index, number) else {
            return None;
        };
        let deadline = self.heap[self.index[row].at].deadline;
        let at = take_out(&mut self.heap, &mut self.index, row);
        self.spare += 1;
        reorder_at(&mut self.heap, &mut self.index, at);
        Some(deadline)
    }
}
