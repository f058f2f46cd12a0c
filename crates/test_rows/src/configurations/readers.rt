//! What each reader of a configuration gives.
ghost use Rattle.std.specs.Prelude.{◌<◌, length};

use ilp_accounts::Config;
use std::io;

/// Prints what each reader gives, a line each.
pub(crate) fn print_readers(rt: &impl Print, config: &Config) -> io::Result<()> {
    print_texts(rt, config)?;
    print_numbers(rt, config)?;
    print_assets(rt, config)?;
    for peer in 0..config.peers() {
        print_peer(rt, config, peer)?;
        print_limits(rt, config, peer)?;
        print_settlement(rt, config, peer)?;
    }
    print_found(rt, config)?;
    for address in ["test.alice", "test.bob.x", "test.bobby", "peer.settle"] {
        print_route(rt, config, address)?;
    }
    Ok(())
}

/// Prints to which peer octets go that name an address.
pub(crate) fn print_route(rt: &impl Print, config: &Config, address: &str) -> io::Result<()> {
    print_place(rt, "route of", address, config.route(address.as_bytes()))
}

fn print_texts(rt: &impl Print, config: &Config) -> io::Result<()> {
    println!(rt; "address {}", config.address())?;
    println!(rt; "run {}", config.run())?;
    println!(rt; "listen {}", config.listen())?;
    println!(rt; "engine_listen {}", config.engine_listen())?;
    println!(rt; "path {}", config.path())
}

fn print_numbers(rt: &impl Print, config: &Config) -> io::Result<()> {
    println!(rt; "workers {}", config.workers())?;
    println!(rt; "journal {}", config.journal())?;
    println!(rt; "window_ms {}", config.window_ms())?;
    println!(rt; "max_hold_ms {}", config.max_hold_ms())?;
    println!(rt; "sweep_ms {}", config.sweep_ms())?;
    println!(rt; "settle_ms {}", config.settle_ms())?;
    println!(rt; "sync {:?}", config.sync())?;
    println!(rt; "in_flight {}", config.in_flight())?;
    println!(rt; "new_period_at {:?}", config.new_period_at())?;
    println!(rt; "peers {}", config.peers())?;
    println!(rt; "routes {}", config.routes())
}

fn print_assets(rt: &impl Print, config: &Config) -> io::Result<()> {
    let assets = config.assets();
    println!(rt; "assets {}", assets.asset_count())?;
    print_place(rt, "place of", "USD/2", assets.find("USD", 2))?;
    print_place(rt, "place of", "USD/3", assets.find("USD", 3))
}

fn print_peer(rt: &impl Print, config: &Config, peer: u32) -> io::Result<()>
    requires { peer < length config.now.peers }
{
    let name = config.name(peer);
    println!(rt; "name of {peer} {name}")?;
    println!(rt; "token of {name} {}", config.token(peer))?;
    println!(rt; "out_token of {name} {}", config.out_token(peer))?;
    println!(rt; "host of {name} {}", config.host(peer))?;
    println!(rt; "out_path of {name} {}", config.out_path(peer))
}

fn print_limits(rt: &impl Print, config: &Config, peer: u32) -> io::Result<()>
    requires { peer < length config.now.peers }
{
    let name = config.name(peer);
    println!(rt; "asset of {name} {}", config.asset(peer))?;
    println!(rt; "scale of {name} {}", config.scale(peer))?;
    println!(rt; "least of {name} {}", config.least(peer))?;
    println!(rt; "fee_ppm of {name} {}", config.fee_ppm(peer))?;
    println!(rt; "max_packet of {name} {}", config.max_packet(peer))
}

fn print_settlement(rt: &impl Print, config: &Config, peer: u32) -> io::Result<()>
    requires { peer < length config.now.peers }
{
    let name = config.name(peer);
    let engine = config.engine(peer).unwrap_or("none");
    println!(rt; "engine of {name} {engine}")?;
    println!(rt;
        "settle_after_ms of {name} {}",
        config.settle_after_ms(peer)
    )?;
    let Some(levels) = config.levels(peer) else {
        return println!(rt; "levels of {name} none");
    };
    println!(rt; "threshold of {name} {}", levels.threshold)?;
    println!(rt; "settle_to of {name} {}", levels.settle_to)?;
    println!(rt; "settle_max of {name} {}", levels.settle_max)
}

fn print_found(rt: &impl Print, config: &Config) -> io::Result<()> {
    print_place(rt, "by token", "b-token", config.peer_by_token(b"b-token"))?;
    print_place(rt, "by token", "to-bob", config.peer_by_token(b"to-bob"))?;
    print_place(rt, "by name", "bob", config.peer_by_name(b"bob"))?;
    print_place(rt, "by name", "b", config.peer_by_name(b"b"))
}

fn print_place(rt: &impl Print, what: &str, key: &str, place: Option<u32>) -> io::Result<()> {
    match place {
        Some(place) => println!(rt; "{what} {key} {place}"),
        None => println!(rt; "{what} {key} none"),
    }
}
