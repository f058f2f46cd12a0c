//! Holds come into the heap and leave it, each with its row of the index.
ghost use Rattle.std.specs.Prelude.{◌≡◌, ◌+◌, ◌<◌, length, vec_len, vec_capacity};
ghost use Rattle.ilp_holds.specs.Heap.{IsHeap};
ghost use Rattle.ilp_holds.specs.Index.{IsIndexed, IsMissingAt};
ghost use Rattle.ilp_holds.specs.Members.{IsAdded, IsTakenOut};

use crate::due::Due;
use crate::heap::exchange;
use crate::index::IndexRow;
use std::alloc::Allocator;

/// Adds a hold as the last of the heap, and before this row of the index its own. Tells where in the
/// heap it stands, which need not be in order there.
pub(crate) fn add<A: Allocator>(
    heap: &mut Vec<Due, A>,
    index: &mut Vec<IndexRow, A>,
    row: usize,
    due: Due,
) -> usize
    requires heap_room { vec_len heap.old < vec_capacity heap.old }
    requires index_room { vec_len index.old < vec_capacity index.old }
    requires order { IsHeap heap.old.items }
    requires indexed { IsIndexed heap.old.items index.old.items }
    requires missing { IsMissingAt index.old.items due.number row }
    ensures added { IsAdded heap.old.items index.old.items row due
        heap.new.items index.new.items result }

    // Each is longer by one, in the room that it has.
    ensures heap_len { vec_len heap.new ≡ vec_len heap.old + 1 }
    ensures heap_capacity { vec_capacity heap.new ≡ vec_capacity heap.old }
    ensures index_len { vec_len index.new ≡ vec_len index.old + 1 }
    ensures index_capacity { vec_capacity index.new ≡ vec_capacity index.old }
{
    let at = heap.len();
    let number = due.number;
    heap.push_reserved(due);
    let Ok(()) = index.insert(row, IndexRow { number, at }) else {
        unreachable!();
    };
    at
}

/// Takes out the hold of this row, and the row. Tells where in the heap another took its place,
/// which need not be in order there.
pub(crate) fn take_out<A: Allocator>(
    heap: &mut Vec<Due, A>,
    index: &mut Vec<IndexRow, A>,
    row: usize,
) -> usize
    requires row { row < length index.old.items }
    requires order { IsHeap heap.old.items }
    requires indexed { IsIndexed heap.old.items index.old.items }
    ensures taken { IsTakenOut heap.old.items index.old.items row
        heap.new.items index.new.items result }

    // Each is shorter by one, in the room that it has.
    ensures heap_len { vec_len heap.new + 1 ≡ vec_len heap.old }
    ensures heap_capacity { vec_capacity heap.new ≡ vec_capacity heap.old }
    ensures index_len { vec_len index.new + 1 ≡ vec_len index.old }
    ensures index_capacity { vec_capacity index.new ≡ vec_capacity index.old }
{
    let at = index[row].at;
    let last = heap.len() - 1;
    exchange(heap, index, row, at, last);
    heap.truncate(last);
    index.remove(row);
    at
}
