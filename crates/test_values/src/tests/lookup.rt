//! Look-ups by hand.
use ilp_lookup::{LookupFault, RouteIndex, TextIndex};
use std::process::Abort;
use std::test::Fail;

fn expect_routes(rt: &impl Abort, routes: &RouteIndex, expected: &[(&str, Option<u32>)]) {
    for (octets, peer) in expected {
        let found = routes.find(octets.as_bytes());
        assert!(rt; found == *peer, "{octets}: {found:?}");
    }
}

// As many routes as a configuration may have.
#[test]
fn routes_of_4096_prefixes(rt: HostRuntime) -> Result<(), Fail> {
    let mut routes = RouteIndex::new(rt.alloc());
    add_4096(&rt, &mut routes)?;
    expect_4096(&rt, &routes)
}

fn add_4096(rt: &impl AllocGlobal, routes: &mut RouteIndex) -> Result<(), Fail> {
    for number in 0..4096u32 {
        let prefix = format!(in rt.alloc(); "test.p{number}")?;
        routes.insert(prefix.as_bytes(), number % 256)?;
    }
    Ok(())
}

fn expect_4096(rt: &(impl Abort + AllocGlobal), routes: &RouteIndex) -> Result<(), Fail> {
    for number in 0..4096u32 {
        let octets = format!(in rt.alloc(); "test.p{number}.x.y")?;
        assert!(rt;
            routes.find(octets.as_bytes()) == Some(number % 256),
            "{octets}"
        );
    }
    expect_routes(
        rt,
        routes,
        &[
            ("test.p4095", Some(255)),
            ("test.p4096", None),
            ("test.p40955", None),
            ("test.p", None),
            ("test", None),
        ],
    );
    Ok(())
}

// An address of 1,023 octets, `a.a.a` and so on, is routed by its longest prefix, wherever that
// ends.
#[test]
fn routes_of_a_longest_address(rt: HostRuntime) -> Result<(), Fail> {
    let mut address = [b'.'; 1023];
    for (place, octet) in address.iter_mut().enumerate() {
        if place % 2 == 0 {
            *octet = b'a';
        }
    }
    let mut routes = RouteIndex::new(rt.alloc());
    route_longest(&rt, &mut routes, &address)
}

fn route_longest(rt: &impl Abort, routes: &mut RouteIndex, address: &[u8]) -> Result<(), Fail> {
    assert_eq!(rt; routes.find(address), None);
    for (peer, len) in [(0, 0), (1, 1), (2, 3), (3, 511), (4, 1021), (5, 1023)] {
        assert!(rt; len <= address.len());
        routes.insert(&address[..len], peer)?;
        assert_eq!(rt; routes.find(address), Some(peer));
    }
    Ok(())
}

#[test]
fn a_copy_of_routes_goes_its_own_way(rt: HostRuntime) -> Result<(), Fail> {
    let mut routes = RouteIndex::new(rt.alloc());
    routes.insert(b"test.alice", 0)?;
    routes.insert(b"test.bob", 1)?;
    let mut copy = routes.copy()?;
    copy.insert(b"test.bob.x", 2)?;
    expect_routes(
        &rt,
        &routes,
        &[("test.alice", Some(0)), ("test.bob.x", Some(1))],
    );
    expect_routes(
        &rt,
        &copy,
        &[("test.alice", Some(0)), ("test.bob.x", Some(2))],
    );
    Ok(())
}

#[test]
fn places_of_256_tokens(rt: HostRuntime) -> Result<(), Fail> {
    let mut tokens = TextIndex::new(rt.alloc());
    assert!(rt; tokens.is_empty());
    add_256(&rt, &mut tokens)?;
    expect_256(&rt, &tokens)
}

fn add_256(rt: &(impl Abort + AllocGlobal), tokens: &mut TextIndex) -> Result<(), Fail> {
    for place in 0..256u32 {
        let token = format!(in rt.alloc(); "token-{place}")?;
        assert_eq!(rt; tokens.find(token.as_bytes()), None);
        assert!(rt; tokens.len() < 256);
        tokens.insert(token.as_bytes())?;
    }
    assert_eq!(rt; tokens.len(), 256);
    Ok(())
}

fn expect_256(rt: &(impl Abort + AllocGlobal), tokens: &TextIndex) -> Result<(), Fail> {
    for place in 0..256u32 {
        let token = format!(in rt.alloc(); "token-{place}")?;
        assert_eq!(rt; tokens.find(token.as_bytes()), Some(place));
    }
    for text in ["token-256", "token-", "token-1 ", "TOKEN-1", ""] {
        assert_eq!(rt; tokens.find(text.as_bytes()), None);
    }
    Ok(())
}

#[test]
fn a_second_equal_text_is_refused(rt: HostRuntime) -> Result<(), Fail> {
    let mut names = TextIndex::new(rt.alloc());
    add_twice(&rt, &mut names)
}

fn add_twice(rt: &impl Abort, names: &mut TextIndex) -> Result<(), Fail> {
    let texts: [&[u8]; 3] = [b"alice", b"", &[0, 255]];
    for text in texts {
        assert!(rt; names.len() < 3);
        names.insert(text)?;
    }
    for text in texts {
        assert!(rt; names.len() < 4);
        assert_eq!(rt; names.insert(text), Err(LookupFault::Double));
    }
    assert_eq!(rt; names.len(), 3);
    assert_eq!(rt; names.find(b""), Some(1));
    assert_eq!(rt; names.find(&[0, 255]), Some(2));
    Ok(())
}

#[test]
fn a_copy_of_texts_goes_its_own_way(rt: HostRuntime) -> Result<(), Fail> {
    let mut names = TextIndex::new(rt.alloc());
    names.insert(b"alice")?;
    let mut copy = names.copy()?;
    copy.insert(b"bob")?;
    assert_eq!(rt; names.find(b"bob"), None);
    assert_eq!(rt; copy.find(b"alice"), Some(0));
    assert_eq!(rt; copy.find(b"bob"), Some(1));
    Ok(())
}

#[test]
fn says_why_nothing_was_added(rt: HostRuntime) -> Result<(), Fail> {
    for (fault, text) in [
        (LookupFault::Double, "it is there already"),
        (LookupFault::Memory, "memory is short"),
    ] {
        assert_eq!(rt; format!(in rt.alloc(); "{fault}")?.as_str(), text);
    }
    Ok(())
}
