//! Indices of texts and of routes.

use super::GROWTHS;
use ilp_lookup::{LookupFault, RouteIndex, TextIndex};
use std::alloc::{AllocError, Allocator};
use std::process::Abort;
use test_allocator::DenyingAllocator;

const TOKENS: [&[u8]; 5] = [b"alice", b"bob", b"carol", b"dave", b"erin"];

// Adds the tokens in turn, as far as the first that is denied memory, and says how many were added.
fn add_tokens<A: Allocator + Copy>(rt: &impl Abort, texts: &mut TextIndex<A>) -> u32 {
    let mut added = 0;
    for token in TOKENS {
        assert!(rt; texts.len() == added && added < 5);
        match texts.insert(token) {
            Ok(()) => added += 1,
            Err(fault) => {
                assert_eq!(rt; fault, LookupFault::Memory);
                assert_eq!(rt; texts.find(token), None);
                return added;
            }
        }
    }
    added
}

// The first of the tokens stand at their places, and there are no other texts.
fn assert_tokens<A: Allocator + Copy>(rt: &impl Abort, texts: &TextIndex<A>, count: u32) {
    assert_eq!(rt; texts.len(), count);
    for (token, place) in TOKENS.iter().zip(0..5u32) {
        let expected = if place < count { Some(place) } else { None };
        assert!(rt; texts.find(token) == expected, "{place} of {count}");
    }
}

#[test]
fn adding_texts(rt: HostRuntime) {
    for granted in 0..GROWTHS {
        let heap = DenyingAllocator::after(rt.alloc(), granted);
        let mut texts = TextIndex::new(&heap);
        let added = add_tokens(&rt, &mut texts);
        assert_tokens(&rt, &texts, added);
        assert_eq!(rt; added < 5, heap.has_denied());
        if !heap.has_denied() {
            return;
        }
    }
    assert!(rt; false, "no growth was left to deny");
}

#[test]
fn copying_texts(rt: HostRuntime) {
    for granted in 0..GROWTHS {
        let heap = DenyingAllocator::after(rt.alloc(), granted);
        let mut texts = TextIndex::new(&heap);
        let outcome = copy_tokens(&rt, &mut texts);
        if !heap.has_denied() {
            assert_eq!(rt; outcome, Ok(()));
            return;
        }
        assert_eq!(rt; outcome, Err(AllocError));
    }
    assert!(rt; false, "no growth was left to deny");
}

// Adds the tokens and copies them.
fn copy_tokens<A: Allocator + Copy>(
    rt: &impl Abort,
    texts: &mut TextIndex<A>,
) -> Result<(), AllocError> {
    if add_tokens(rt, texts) < 5 {
        return Err(AllocError);
    }
    let outcome = texts.copy();
    assert_tokens(rt, texts, 5);
    assert_tokens(rt, &outcome?, 5);
    Ok(())
}

// A route of the prefix `test` to peer 1 is there, and no other but one of `test.bob` to peer 0.
fn assert_routed<A: Allocator + Copy>(rt: &impl Abort, routes: &RouteIndex<A>, bob: bool) {
    let peer = if bob { 0 } else { 1 };
    assert_eq!(rt; routes.find(b"test.bob.x"), Some(peer));
    assert_eq!(rt; routes.find(b"test.bobby"), Some(1));
    assert_eq!(rt; routes.find(b"g.us"), None);
}

#[test]
fn adding_routes(rt: HostRuntime) {
    for granted in 0..GROWTHS {
        let heap = DenyingAllocator::after(rt.alloc(), granted);
        let mut routes = RouteIndex::new(&heap);
        let outcome = add_routes(&rt, &mut routes);
        if !heap.has_denied() {
            assert_eq!(rt; outcome, Ok(()));
            return;
        }
        assert_eq!(rt; outcome, Err(LookupFault::Memory));
    }
    assert!(rt; false, "no growth was left to deny");
}

fn add_routes<A: Allocator + Copy>(
    rt: &impl Abort,
    routes: &mut RouteIndex<A>,
) -> Result<(), LookupFault> {
    if let Err(fault) = routes.insert(b"test", 1) {
        assert_eq!(rt; routes.find(b"test"), None);
        return Err(fault);
    }
    let outcome = routes.insert(b"test.bob", 0);
    assert_routed(rt, routes, outcome.is_ok());
    outcome
}

#[test]
fn copying_routes(rt: HostRuntime) {
    for granted in 0..GROWTHS {
        let heap = DenyingAllocator::after(rt.alloc(), granted);
        let mut routes = RouteIndex::new(&heap);
        let outcome = copy_routes(&rt, &mut routes);
        if !heap.has_denied() {
            assert_eq!(rt; outcome, Ok(()));
            return;
        }
        assert_eq!(rt; outcome, Err(LookupFault::Memory));
    }
    assert!(rt; false, "no growth was left to deny");
}

fn copy_routes<A: Allocator + Copy>(
    rt: &impl Abort,
    routes: &mut RouteIndex<A>,
) -> Result<(), LookupFault> {
    routes.insert(b"test", 1)?;
    routes.insert(b"test.bob", 0)?;
    let outcome = routes.copy();
    assert_routed(rt, routes, true);
    assert_routed(rt, &outcome?, true);
    Ok(())
}

// Look-ups, and what is there already, want no memory.
#[test]
fn doubles_want_no_memory(rt: HostRuntime) {
    for granted in 0..GROWTHS {
        let heap = DenyingAllocator::after(rt.alloc(), granted);
        let mut routes = RouteIndex::new(&heap);
        let outcome = add_double(&rt, &mut routes);
        if !heap.has_denied() {
            assert_eq!(rt; outcome, Ok(()));
            return;
        }
        assert_eq!(rt; outcome, Err(LookupFault::Memory));
    }
    assert!(rt; false, "no growth was left to deny");
}

fn add_double<A: Allocator + Copy>(
    rt: &impl Abort,
    routes: &mut RouteIndex<A>,
) -> Result<(), LookupFault> {
    routes.insert(b"test", 1)?;
    assert_eq!(rt; routes.insert(b"test", 2), Err(LookupFault::Double));
    assert_eq!(rt; routes.find(b"test"), Some(1));
    Ok(())
}
