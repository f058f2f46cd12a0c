//! Steps that put a hold where it belongs in the heap. The index follows.
ghost use Rattle.std.specs.Prelude.{◌≡◌, ◌+◌, ◌*◌, ◌<◌, ◌≤◌, length, swap, IfSome, IfNone};
ghost use Rattle.std.specs.Bool.{OnTrue, OnFalse};
ghost use Rattle.ilp_holds.specs.Heap.{IsHeap, IsHeapBut, IsUnderParent, IsFirstChild, IsEarlierChild, HasNoEarlier};
ghost use Rattle.ilp_holds.specs.Index.{IsIndexed, LeadsTo, holds};

use crate::due::Due;
use crate::index::{IndexRow, note, search};

/// Moves the hold at this place of the heap, which is that of this row of the index, up or down as
/// far as the heap's order wants.
pub(crate) fn reorder(heap: &mut [Due], index: &mut [IndexRow], row: usize, at: usize)
    requires leads { LeadsTo index.old row at }
    requires indexed { IsIndexed heap.old index.old }
    requires almost { IsHeapBut heap.old at }
    ensures indexed { IsIndexed heap.new index.new }
    ensures same { holds heap.new index.new ≡ holds heap.old index.old }
    ensures heap { IsHeap heap.new }
{
    let risen = rise(heap, index, row, at);
    sink(heap, index, row, risen);
}

/// As `reorder`, where the row is not known. Past the end there is no hold to move.
pub(crate) fn reorder_at(heap: &mut [Due], index: &mut [IndexRow], at: usize)
    requires indexed { IsIndexed heap.old index.old }
    requires almost { IsHeapBut heap.old at }
    ensures indexed { IsIndexed heap.new index.new }
    ensures same { holds heap.new index.new ≡ holds heap.old index.old }
    ensures heap { IsHeap heap.new }
{
    if at < heap.len() {
        let Ok(row) = search(index, heap[at].number) else {
            unreachable!();
        };
        reorder(heap, index, row, at);
    }
}

// Up, until its parent is not after it. Tells where it is then.
fn rise(heap: &mut [Due], index: &mut [IndexRow], row: usize, mut at: usize) -> usize
    requires leads { LeadsTo index.old row at }
    requires indexed { IsIndexed heap.old index.old }
    requires almost { IsHeapBut heap.old at }
    ensures leads { LeadsTo index.new row result }
    ensures indexed { IsIndexed heap.new index.new }
    ensures same { holds heap.new index.new ≡ holds heap.old index.old }
    ensures almost { IsHeapBut heap.new result }
    ensures under { IsUnderParent heap.new result }
{
    while is_before_parent(heap, at) {
        let parent = (at - 1) / 2;
        exchange(heap, index, row, at, parent);
        at = parent;
    }
    at
}

// Whether it has a parent, and comes before it.
fn is_before_parent(heap: &[Due], at: usize) -> bool
    requires { at < length heap.now }
    ensures yes { OnTrue result (0 < at) }
    ensures no { OnFalse result (IsUnderParent heap.now at) }
{
    if at == 0 {
        return false;
    }
    let parent = (at - 1) / 2;
    heap[at].is_before(&heap[parent])
}

// Down, until no child is before it.
fn sink(heap: &mut [Due], index: &mut [IndexRow], row: usize, mut at: usize)
    requires leads { LeadsTo index.old row at }
    requires indexed { IsIndexed heap.old index.old }
    requires almost { IsHeapBut heap.old at }
    requires under { IsUnderParent heap.old at }
    ensures indexed { IsIndexed heap.new index.new }
    ensures same { holds heap.new index.new ≡ holds heap.old index.old }
    ensures heap { IsHeap heap.new }
{
    while let Some(child) = earlier_child(heap, at) {
        exchange(heap, index, row, at, child);
        at = child;
    }
}

// The first of the children, if it is before the hold at this place.
fn earlier_child(heap: &[Due], at: usize) -> Option<usize>
    requires { at < length heap.now }
    ensures earlier { IfSome result (IsEarlierChild heap.now at) }
    ensures none { IfNone result (HasNoEarlier heap.now at) }
{
    let child = first_child(heap, at)?;
    if heap[child].is_before(&heap[at]) {
        Some(child)
    } else {
        None
    }
}

// The first of the children, if there is one.
fn first_child(heap: &[Due], at: usize) -> Option<usize>
    requires { at < length heap.now }
    ensures first { IfSome result (IsFirstChild heap.now at) }
    ensures none { IfNone result (length heap.now ≤ 2 * at + 1) }
{
    let left = 2 * at + 1;
    let right = left + 1;
    if left >= heap.len() {
        return None;
    }
    if right < heap.len() && heap[right].is_before(&heap[left]) {
        Some(right)
    } else {
        Some(left)
    }
}

/// Exchanges the hold at a place of the heap, which is that of this row, with another one. Of these
/// two only the other one is searched in the index.
pub(crate) fn exchange(
    heap: &mut [Due],
    index: &mut [IndexRow],
    row: usize,
    at: usize,
    other: usize,
)
    requires leads { LeadsTo index.old row at }
    requires within { other < length heap.old }
    requires indexed { IsIndexed heap.old index.old }
    ensures heap { heap.new ≡ swap heap.old at other }
    ensures leads { LeadsTo index.new row other }
    ensures indexed { IsIndexed heap.new index.new }
    ensures same { holds heap.new index.new ≡ holds heap.old index.old }
{
    heap.swap(at, other);
    note(index, heap[at].number, at);
    index[row].at = other;
}
