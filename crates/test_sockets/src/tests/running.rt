//! The running connector, in a conversation of its peers and a settlement engine, beside a peer that says
//! nothing, beside one that answers once its packet was swept, beside an engine that says nothing of one of
//! two settlements, with payouts that are paused, and with a balance that is corrected. The tests themselves start the threads:
//! what a connector asks of its runtime has types of its own, of which a proof knows nothing in another
//! thread where the runtime is a parameter.

mod conversation;
mod correcting;
mod messages;
mod parts;
mod pausing;
mod silence;
mod sweeping;

use super::{START, Settable, Still};
use conversation::{Others, converse};
use correcting::{PRINTED_OF_CORRECTIONS, correct};
use ilp_accounts::Config;
use ilp_book::Book;
use ilp_config_file::BUILT_IN;
use ilp_links::TcpLinks;
use ilp_notices::Notices;
use ilp_running::serve;
use messages::{PRINTED, PRINTED_OF_PARTS, PRINTED_OF_SILENCE, SWEPT, UNTOUCHED};
use parts::{Settling, settle_in_parts};
use pausing::pause;
use silence::{Scene, stay_silent};
use std::alloc::Global;
use std::io;
use std::io::{Eprint, ErrorKind};
use std::net::{Net, TcpListener, TcpStream};
use std::rt::Files;
use std::sync::Wait;
use std::sync::atomic::AtomicI64;
use std::test::Fail;
use std::thread::{Threads, join};
use std::time::Clock;
use sweeping::sweep;

// Serves by this clock until it is asked to close. Gives what was printed.
fn printed<R, C>(rt: &R, config: &Config, clock: C) -> io::Result<Vec<u8>>
where
    R: Net<Listener = TcpListener, Stream = TcpStream>
        + Threads
        + Wait
        + Clock
        + Eprint
        + Files
        + Copy
        + Send
        + Sync,
    C: ilp_link_traits::Clock + Copy + Drop + Send,
{
    let notices = Notices::new(config.allocator(), config)?;
    let links = TcpLinks::new(clock, notices);
    let mut writer = Vec::new(config.allocator());
    let book = Book::new(config.allocator(), config)?;
    match serve(rt, config, book, &links, &mut writer) {
        Ok(_closed) => Ok(writer),
        Err(_) => Err(io::Error::from(ErrorKind::Other)),
    }
}

// Whether this was printed, and what was said meanwhile went as it should.
fn is_right(written: io::Result<Vec<u8>>, said: io::Result<bool>, text: &[u8]) -> bool {
    match (written, said) {
        (Ok(written), Ok(true)) => written.as_slice() == text,
        _ => false,
    }
}

// Has the conversation with a bob and an engine that listen here.
fn converse_with<R: Net<Stream = TcpStream> + Clock>(
    rt: &R,
    alloc: Global,
    bob: &TcpListener,
    engine: &TcpListener,
) -> io::Result<bool> {
    converse(rt, alloc, &Others { bob, engine })
}

// Has what is said beside a silent bob who listens here.
fn stay_silent_at<R: Net<Stream = TcpStream> + Clock>(
    rt: &R,
    alloc: Global,
    peers: &String,
    engines: &String,
    bob: &TcpListener,
) -> io::Result<bool> {
    let scene = Scene {
        peers: peers.as_str(),
        engines: engines.as_str(),
        bob,
    };
    stay_silent(rt, alloc, &scene)
}

// Has a packet swept that was passed on to a bob who listens here.
fn sweep_at<R: Net<Stream = TcpStream> + Clock>(
    rt: &R,
    alloc: Global,
    peers: &String,
    engines: &String,
    bob: &TcpListener,
    moment: &AtomicI64,
) -> io::Result<bool> {
    let scene = Scene {
        peers: peers.as_str(),
        engines: engines.as_str(),
        bob,
    };
    sweep(rt, alloc, &scene, moment)
}

// Has two settlements with bob, whose engine listens here.
fn settle_in_parts_at<R: Net<Stream = TcpStream> + Clock>(
    rt: &R,
    alloc: Global,
    engines: &String,
    engine: &TcpListener,
) -> io::Result<bool> {
    let settling = Settling {
        engines: engines.as_str(),
        engine,
    };
    settle_in_parts(rt, alloc, settling)
}

// Has the payouts to bob paused, and go on.
fn pause_at<R: Net<Stream = TcpStream> + Clock>(
    rt: &R,
    alloc: Global,
    engines: &String,
) -> io::Result<bool> {
    pause(rt, alloc, engines.as_str())
}

// Has the balance of bob corrected.
fn correct_at<R: Net<Stream = TcpStream> + Clock>(
    rt: &R,
    alloc: Global,
    engines: &String,
) -> io::Result<bool> {
    correct(rt, alloc, engines.as_str())
}

// What a test plays on: the configuration, and where bob and his engine listen.
#[derive(Drop)]
struct Stage {
    config: Config,
    bob: TcpListener,
    engine: TcpListener,
}

// The stage of the built-in configuration.
fn built_in<R: Net<Listener = TcpListener, Stream = TcpStream>>(
    rt: &R,
    alloc: Global,
) -> io::Result<Stage> {
    let bob = TcpListener::bind(rt, "127.0.0.1:7002")?;
    let engine = TcpListener::bind(rt, "127.0.0.1:7003")?;
    stage_of(alloc, BUILT_IN, bob, engine)
}

fn stage_of(alloc: Global, text: &str, bob: TcpListener, engine: TcpListener) -> io::Result<Stage> {
    let Ok(config) = Config::read(alloc, text.as_bytes()) else {
        return Err(io::Error::from(ErrorKind::InvalidData));
    };
    Ok(Stage {
        config,
        bob,
        engine,
    })
}

#[test]
fn a_conversation(rt: HostRuntime) -> Result<(), Fail> {
    let alloc = rt.alloc();
    let Stage {
        config,
        bob,
        engine,
    } = built_in(&rt, alloc)?;
    let (written, said) = join(
        &rt,
        || printed(&rt, &config, Still),
        || converse_with(&rt, alloc, &bob, &engine),
    );
    assert!(rt; is_right(written, said, PRINTED));
    Ok(())
}

// A place at which nobody listens.
fn free_place<R: Net<Listener = TcpListener, Stream = TcpStream>>(
    rt: &R,
    alloc: Global,
) -> io::Result<String> {
    let place = TcpListener::bind(rt, "127.0.0.1:0")?.local_addr()?;
    Ok(format!(in alloc; "{place}")?)
}

// The terms of a connector with two workers at these places, which holds packets for so many milliseconds
// at most. They end with those of bob.
fn terms(
    alloc: Global,
    peers: &str,
    engines: &str,
    bob: &str,
    max_hold_ms: u32,
) -> io::Result<String> {
    let text = format!(in alloc;
        "address = \"test.hub\"\nrun = \"r1\"\nlisten = \"{peers}\"\nengine_listen = \"{engines}\"\nworkers = 2\nsettle_ms = 20\nmax_hold_ms = {max_hold_ms}\n[[asset]]\ncode = \"USD\"\nscale = 2\n[[route]]\nprefix = \"test.bob\"\npeer = \"bob\"\n[[peer]]\nname = \"alice\"\nasset = \"USD/2\"\ntoken = \"a-token\"\nout_token = \"to-alice\"\nhost = \"127.0.0.1:1\"\nleast = -100\n[[peer]]\nname = \"bob\"\nasset = \"USD/2\"\ntoken = \"b-token\"\nout_token = \"to-bob\"\nhost = \"{bob}\"\nleast = -100\n"
    )?;
    Ok(text)
}

// The stage of a connector at these places, whose bob has no engine.
fn beside_bob<R: Net<Listener = TcpListener, Stream = TcpStream>>(
    rt: &R,
    alloc: Global,
    peers: &str,
    engines: &str,
    max_hold_ms: u32,
) -> io::Result<Stage> {
    let bob = TcpListener::bind(rt, "127.0.0.1:0")?;
    let engine = TcpListener::bind(rt, "127.0.0.1:0")?;
    let place = format!(in alloc; "{}", bob.local_addr()?)?;
    let text = terms(alloc, peers, engines, place.as_str(), max_hold_ms)?;
    stage_of(alloc, text.as_str(), bob, engine)
}

// The terms of a connector at these places, which settles with bob by this engine, in parts of 400.
fn terms_in_parts(
    alloc: Global,
    peers: &str,
    engines: &str,
    engine: &TcpListener,
) -> io::Result<String> {
    let text = terms(alloc, peers, engines, "127.0.0.1:1", 30_000)?;
    let place = engine.local_addr()?;
    let text = format!(in alloc;
        "{text}engine = \"{place}\"\nthreshold = 500\nsettle_to = 200\nsettle_max = 400\n"
    )?;
    Ok(text)
}

// The stage of a connector at these places, which settles with bob in parts.
fn in_parts<R: Net<Listener = TcpListener, Stream = TcpStream>>(
    rt: &R,
    alloc: Global,
    peers: &str,
    engines: &str,
) -> io::Result<Stage> {
    let bob = TcpListener::bind(rt, "127.0.0.1:0")?;
    let engine = TcpListener::bind(rt, "127.0.0.1:0")?;
    let text = terms_in_parts(alloc, peers, engines, &engine)?;
    stage_of(alloc, text.as_str(), bob, engine)
}

#[test]
fn a_silent_peer(rt: HostRuntime) -> Result<(), Fail> {
    let alloc = rt.alloc();
    let (peers, engines) = (free_place(&rt, alloc)?, free_place(&rt, alloc)?);
    let Stage {
        config,
        bob,
        engine: _engine,
    } = beside_bob(&rt, alloc, peers.as_str(), engines.as_str(), 1_000)?;
    let (written, said) = join(
        &rt,
        || printed(&rt, &config, Still),
        || stay_silent_at(&rt, alloc, &peers, &engines, &bob),
    );
    assert!(rt; is_right(written, said, PRINTED_OF_SILENCE));
    Ok(())
}

#[test]
fn a_hold_that_is_swept(rt: HostRuntime) -> Result<(), Fail> {
    let alloc = rt.alloc();
    let (peers, engines) = (free_place(&rt, alloc)?, free_place(&rt, alloc)?);
    let Stage {
        config,
        bob,
        engine: _engine,
    } = beside_bob(&rt, alloc, peers.as_str(), engines.as_str(), 3_600_000)?;
    let moment = AtomicI64::new(START);
    let (written, said) = join(
        &rt,
        || printed(&rt, &config, Settable(&moment)),
        || sweep_at(&rt, alloc, &peers, &engines, &bob, &moment),
    );
    assert!(rt; is_right(written, said, SWEPT));
    Ok(())
}

#[test]
fn two_open_settlements(rt: HostRuntime) -> Result<(), Fail> {
    let alloc = rt.alloc();
    let (peers, engines) = (free_place(&rt, alloc)?, free_place(&rt, alloc)?);
    let Stage {
        config,
        bob: _bob,
        engine,
    } = in_parts(&rt, alloc, peers.as_str(), engines.as_str())?;
    let (written, said) = join(
        &rt,
        || printed(&rt, &config, Still),
        || settle_in_parts_at(&rt, alloc, &engines, &engine),
    );
    assert!(rt; is_right(written, said, PRINTED_OF_PARTS));
    Ok(())
}

#[test]
fn paused_payouts(rt: HostRuntime) -> Result<(), Fail> {
    let alloc = rt.alloc();
    let (peers, engines) = (free_place(&rt, alloc)?, free_place(&rt, alloc)?);
    let Stage {
        config,
        bob: _bob,
        engine: _engine,
    } = beside_bob(&rt, alloc, peers.as_str(), engines.as_str(), 30_000)?;
    let (written, said) = join(
        &rt,
        || printed(&rt, &config, Still),
        || pause_at(&rt, alloc, &engines),
    );
    assert!(rt; is_right(written, said, UNTOUCHED));
    Ok(())
}

#[test]
fn corrected_balances(rt: HostRuntime) -> Result<(), Fail> {
    let alloc = rt.alloc();
    let (peers, engines) = (free_place(&rt, alloc)?, free_place(&rt, alloc)?);
    let Stage {
        config,
        bob: _bob,
        engine: _engine,
    } = beside_bob(&rt, alloc, peers.as_str(), engines.as_str(), 30_000)?;
    let (written, said) = join(
        &rt,
        || printed(&rt, &config, Still),
        || correct_at(&rt, alloc, &engines),
    );
    assert!(rt; is_right(written, said, PRINTED_OF_CORRECTIONS));
    Ok(())
}
