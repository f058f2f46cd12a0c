//! Texts that are to name addresses.
ghost use Rattle.std.specs.Prelude.{◌≡◌, ◌↔◌, ◌≢◌, false, IsTrue};
ghost use Rattle.std.specs.Net.Socket.{socket_port};
ghost use Rattle.ilp_warnings.specs.Meaning.{IsSocketAddress, IsOpen, IsClosed, StandsFor, Meets, IsShared};

use std::net::{IpAddr, SocketAddr};

/// Whether a text is `IP:PORT`.
pub(crate) fn is_address(text: &str) -> bool
    ensures { IsTrue result ↔ IsSocketAddress text.now }
{
    text.parse::<SocketAddr>().is_ok()
}

/// Whether a text names an address that other machines may reach.
pub(crate) fn is_open(text: &str) -> bool
    ensures open { IsTrue result → IsOpen text.now }
    ensures closed { result ≡ false → IsClosed text.now }
{
    match text.parse::<SocketAddr>() {
        Ok(address) => !address.ip().is_loopback(),
        Err(_) => false,
    }
}

/// Whether only one of both texts can be listened at: they name one address, or one stands for the
/// other. A port that the system chooses is another one each time.
pub(crate) fn is_shared(text: &str, other: &str) -> bool
    ensures { IsTrue result ↔ IsShared text.now other.now }
{
    match (text.parse::<SocketAddr>(), other.parse::<SocketAddr>()) {
        (Ok(address), Ok(other)) => conflicts(address, other),
        _ => false,
    }
}

// Whether only one of both can be listened at.
fn conflicts(address: SocketAddr, other: SocketAddr) -> bool
    ensures { IsTrue result ↔ ((socket_port address ≢ 0) × Meets address other) }
{
    address.port() != 0 && meets(address, other)
}

// Whether both are one address, or one stands for the other at the same port.
fn meets(address: SocketAddr, other: SocketAddr) -> bool
    ensures { IsTrue result ↔ Meets address other }
{
    address == other
        || (address.port() == other.port()
            && (stands_for(address.ip(), other.ip()) || stands_for(other.ip(), address.ip())))
}

// Whether the one stands for all addresses of this machine, and so for the other.
fn stands_for(all: IpAddr, ip: IpAddr) -> bool
    ensures { IsTrue result ↔ StandsFor all ip }
{
    match (all, ip) {
        (IpAddr::V4(all), IpAddr::V4(_)) => all.is_unspecified(),
        (IpAddr::V4(_), IpAddr::V6(_)) => false,
        (IpAddr::V6(all), _) => all.is_unspecified(),
    }
}
