//! A configuration, read from TOML.
ghost use Rattle.std.specs.Prelude.{◌≡◌, ◌⊎◌, ◌<◌, ◌≤◌, List, length, option_map, Err, IfOk, IfSome};
ghost use Rattle.toml.specs.Data.{Members};
ghost use Rattle.toml.specs.View.{table_view};
ghost use Rattle.ilp_fields.specs.Checks.{Reads};
ghost use Rattle.ilp_accounts.specs.Configuration.{configuration, peer_at, peer_names, peer_tokens};
ghost use Rattle.ilp_accounts.specs.Limits.{most_peers};
ghost use Rattle.ilp_accounts.specs.Valid.{IsValid};
ghost use Rattle.ilp_accounts.specs.Views.{plain_peer};
ghost use Rattle.ilp_lookup.specs.Texts.{IsPlaceOf};
ghost use Rattle.ilp_lookup.specs.Route.{IsRoute};
ghost use Rattle.ilp_assets.specs.Quote.{scale_of};
ghost use Rattle.ilp_accounts.specs.Faults.{IsToml, first_fault};

use crate::arrays::arrays_of;
use crate::assets::table_of;
use crate::peer::{Levels, Peer};
use crate::peers::{Peers, peers_of};
use crate::route::routes_of;
use crate::settings::{LogSync, Settings, settings_of};
use ilp_assets::AssetTable;
use ilp_fields::ConfigFault;
use ilp_lookup::RouteIndex;
use sha2::{Digest, Sha256};
use std::alloc::{AllocError, Global};
use std::marker::Model;
use toml::Table;

/// The configuration of a connector. It is valid: what each layer relies on stands in `IsValid`,
/// which `journal`, `assets`, `peers` and `route` tell.
pub struct Config {
    settings: Settings<String>,
    assets: AssetTable,
    peers: Peers,
    routes: RouteIndex,
    digest: [u8; 32],
}

// By hand, so that who owns a configuration proves one call where it goes, and not what becomes of each of its parts.
impl Drop for Config {
    fn drop(self) {
        let Config {
            settings: _,
            assets: _,
            peers: _,
            routes: _,
            digest: _,
        } = self;
    }
}

impl Model for Config {
    ghost use Rattle.std.specs.Prelude.{string_bytes};
    ghost use Rattle.ilp_accounts.specs.Configuration.{Configuration};
    ghost use Rattle.ilp_accounts.specs.Views.{plain_settings};
    ghost use Rattle.ilp_accounts.specs.Valid.{IsValid};

    ghost Value = { Configuration };

    ghost view = { λ c. record {
      settings = plain_settings string_bytes c.settings;
      table = c.assets;
      peers = c.peers;
      routes = c.routes;
    } };

    ghost invariant = { λ c. IsValid (record {
      settings = plain_settings string_bytes c.settings;
      table = c.assets;
      peers = c.peers;
      routes = c.routes;
    }) };
}

impl Config {
    /// Reads a configuration, from octets that TOML reads as a table. Fields that are not known are
    /// ignored.
    ///
    /// The first fault is answered. `NotToml` comes first. Then come the top fields in the order
    /// of the readers below, and the arrays `asset`, `price`, `peer` and `route`: a required field
    /// that is absent is `Missing`, and so is an array without its least element; a value of
    /// another type or outside its range, and an array with too many elements, is `BadValue`. Then
    /// come the fields of all assets, those of all prices, and what is wrong among assets and
    /// prices. Then peer by peer its fields, `NoSuchAsset`, `DoublePeer`, `DoubleToken`, the fields
    /// that a threshold needs and `BadLevels`; and last route by route its fields, with an unknown
    /// peer as `BadValue`, and `DoubleRoute`. `Memory` may come in place of any answer, where a
    /// growth of memory was denied.
    pub fn read(alloc: Global, octets: &[u8]) -> Result<Config, ConfigFault>
        ensures toml { (t : Members) → IsToml octets.now t
            → Reads (λ c. c) result (first_fault t) (configuration t) }
        ensures other { ((t : Members) → ¬ IsToml octets.now t)
            → (result ≡ Err ConfigFault.NotToml) ⊎ (result ≡ Err ConfigFault.Memory) }
    {
        match toml::table_from_slice(alloc, octets) {
            Ok(table) => Config::from_table(alloc, &table, Sha256::digest(octets)),
            Err(fault) => {
                if fault.is_memory() {
                    return Err(ConfigFault::Memory);
                }
                Err(ConfigFault::NotToml)
            }
        }
    }

    // The configuration that a table stands for, read from octets of this digest.
    #[tactic(auto, unfolding(crate::specs::Faults::first_fault))]
    fn from_table(alloc: Global, table: &Table, digest: [u8; 32]) -> Result<Config, ConfigFault>
        ensures { Reads (λ c. c) result
            (first_fault (table_view table.now)) (configuration (table_view table.now)) }
    {
        let fields = settings_of(table)?;
        let settings = fields.owned(alloc)?;
        let arrays = arrays_of(table)?;
        let assets = table_of(alloc, arrays)?;
        let peers = peers_of(alloc, &assets, arrays.peers)?;
        let routes = routes_of(alloc, &peers, arrays.routes)?;
        Ok(Config {
            settings,
            assets,
            peers,
            routes,
            digest,
        })
    }
}

impl Config {
    /// An equal configuration. `AllocError` tells that memory is short.
    pub fn copy(&self) -> Result<Config, AllocError>
        ensures { IfOk result (λ c. c ≡ self.now) }
    {
        let alloc = self.allocator();
        Ok(Config {
            settings: self.settings.fields().owned(alloc)?,
            assets: self.assets.copy()?,
            peers: self.peers.copy()?,
            routes: self.routes.copy()?,
            digest: self.digest,
        })
    }

    /// The SHA-256 digest (FIPS 180-4) of the octets that it was read from, for whoever wants to know which file it was.
    /// Two that are equal by what they say may have different ones, so no clause is about it.
    pub fn digest(&self) -> &[u8; 32] {
        &self.digest
    }

    /// The heap that it lies on.
    pub fn allocator(&self) -> Global {
        self.peers.allocator()
    }
}

// What holds for the connector as a whole.
impl Config {
    /// The connector's own ILP address (RFC 0015).
    pub fn address(&self) -> &str
        ensures { result.now ≡ self.now.settings.address }
    {
        self.settings.address.as_str()
    }

    /// The name of this run: 1 to 32 letters, digits and `-`.
    pub fn run(&self) -> &str
        ensures { result.now ≡ self.now.settings.run }
    {
        self.settings.run.as_str()
    }

    /// Where peers reach the connector: `IP:PORT`.
    pub fn listen(&self) -> &str
        ensures { result.now ≡ self.now.settings.listen }
    {
        self.settings.listen.as_str()
    }

    /// Where settlement engines reach the connector: `IP:PORT`.
    pub fn engine_listen(&self) -> &str
        ensures { result.now ≡ self.now.settings.engine_listen }
    {
        self.settings.engine_listen.as_str()
    }

    /// The target to which peers send packets.
    pub fn path(&self) -> &str
        ensures { result.now ≡ self.now.settings.path }
    {
        self.settings.path.as_str()
    }

    /// How many workers answer peers: 1 to 64.
    pub fn workers(&self) -> u32
        ensures { result ≡ self.now.settings.workers }
    {
        self.settings.workers
    }

    /// How many entries the journal may have: 2 to 16777216.
    pub fn journal(&self) -> u32
        ensures value { result ≡ self.now.settings.journal }
        ensures valid { IsValid self.now }
    {
        self.settings.journal
    }

    /// How much sooner an outgoing packet expires than the incoming one: 0 to 3600000
    /// milliseconds.
    pub fn window_ms(&self) -> u32
        ensures { result ≡ self.now.settings.window_ms }
    {
        self.settings.window_ms
    }

    /// How long a packet is held at most: 1 to 3600000 milliseconds.
    pub fn max_hold_ms(&self) -> u32
        ensures { result ≡ self.now.settings.max_hold_ms }
    {
        self.settings.max_hold_ms
    }

    /// How long the sweeper rests between two turns: 1 to 60000 milliseconds.
    pub fn sweep_ms(&self) -> u32
        ensures { result ≡ self.now.settings.sweep_ms }
    {
        self.settings.sweep_ms
    }

    /// How long the settler rests between two turns: 1 to 60000 milliseconds.
    pub fn settle_ms(&self) -> u32
        ensures { result ≡ self.now.settings.settle_ms }
    {
        self.settings.settle_ms
    }

    /// When the lines of a log reach the disk.
    pub fn sync(&self) -> LogSync
        ensures { result ≡ self.now.settings.sync }
    {
        self.settings.sync
    }

    /// How many packets and messages may wait for peers and engines at once: 1 to 65536.
    pub fn in_flight(&self) -> u32
        ensures { result ≡ self.now.settings.in_flight }
    {
        self.settings.in_flight
    }

    /// At how many percent of the journal a new period begins, with the room that is kept for what is
    /// open: 1 to 95. None where none begins by itself.
    pub fn new_period_at(&self) -> Option<u32>
        ensures { result ≡ self.now.settings.new_period_at }
    {
        self.settings.new_period_at
    }

    /// The assets and their prices.
    pub fn assets(&self) -> &AssetTable
        ensures value { result.now ≡ self.now.table }
        ensures valid { IsValid self.now }
    {
        &self.assets
    }
}

// Peers, which are named by their places from 0.
impl Config {
    /// How many peers there are. Their places are those below this.
    pub fn peers(&self) -> u32
        ensures count { result ≡ length self.now.peers }
        ensures some { 1 ≤ result }
        ensures few { result ≤ most_peers }
        ensures valid { IsValid self.now }
    {
        self.peers.len() as u32
    }

    /// The name of a peer: 1 to 16 small letters, digits, `_` and `-`.
    pub fn name(&self, peer: u32) -> &str
        requires { peer < length self.now.peers }
        ensures { result.now ≡ (peer_at self.now peer).name }
    {
        self.peer(peer).name.as_str()
    }

    /// The token by which a peer is known: 1 to 128 octets of visible ASCII.
    pub fn token(&self, peer: u32) -> &str
        requires { peer < length self.now.peers }
        ensures { result.now ≡ (peer_at self.now peer).token }
    {
        self.peer(peer).token.as_str()
    }

    /// The token that the connector shows to a peer.
    pub fn out_token(&self, peer: u32) -> &str
        requires { peer < length self.now.peers }
        ensures { result.now ≡ (peer_at self.now peer).out_token }
    {
        self.peer(peer).out_token.as_str()
    }

    /// Where a peer is reached: `IP:PORT`.
    pub fn host(&self, peer: u32) -> &str
        requires { peer < length self.now.peers }
        ensures { result.now ≡ (peer_at self.now peer).host }
    {
        self.peer(peer).host.as_str()
    }

    /// The target to which packets for a peer are sent.
    pub fn out_path(&self, peer: u32) -> &str
        requires { peer < length self.now.peers }
        ensures { result.now ≡ (peer_at self.now peer).out_path }
    {
        self.peer(peer).out_path.as_str()
    }

    /// The place of a peer's asset in the table of assets.
    pub fn asset(&self, peer: u32) -> u32
        requires { peer < length self.now.peers }
        ensures { result ≡ (peer_at self.now peer).asset }
    {
        self.peer(peer).asset
    }

    /// The least balance of a peer, in units of its asset; at most 0.
    pub fn least(&self, peer: u32) -> i64
        requires { peer < length self.now.peers }
        ensures { result ≡ (peer_at self.now peer).least }
    {
        self.peer(peer).least
    }

    /// What a peer pays of an amount that it sends: 0 to 1000000 millionths.
    pub fn fee_ppm(&self, peer: u32) -> u32
        requires { peer < length self.now.peers }
        ensures { result ≡ (peer_at self.now peer).fee_ppm }
    {
        self.peer(peer).fee_ppm
    }

    /// The greatest amount of a packet that a peer sends, in units of its asset.
    pub fn max_packet(&self, peer: u32) -> u64
        requires { peer < length self.now.peers }
        ensures { result ≡ (peer_at self.now peer).max_packet }
    {
        self.peer(peer).max_packet
    }

    /// The levels between which the connector settles with a peer, if it does.
    pub fn levels(&self, peer: u32) -> Option<Levels>
        requires { peer < length self.now.peers }
        ensures { result ≡ (peer_at self.now peer).levels }
    {
        self.peer(peer).levels
    }

    /// For how long the balance of a peer is to have been at its threshold or above before a settlement is
    /// asked for, in milliseconds: at most a week, and 0 where the configuration doesn't say.
    pub fn settle_after_ms(&self, peer: u32) -> u32
        requires { peer < length self.now.peers }
        ensures { result ≡ (peer_at self.now peer).settle_after_ms }
    {
        self.peer(peer).settle_after_ms
    }

    /// The scale of a peer's asset.
    pub fn scale(&self, peer: u32) -> u8
        requires { peer < length self.now.peers }
        ensures { result ≡ scale_of self.now.table (peer_at self.now peer).asset }
    {
        let asset = self.asset(peer);
        self.assets.scale(asset)
    }

    /// Where the settlement engine of a peer is reached, if it has one: `IP:PORT`.
    pub fn engine(&self, peer: u32) -> Option<&str>
        requires { peer < length self.now.peers }
        ensures { option_map (λ text. text.now) result ≡ (peer_at self.now peer).engine }
    {
        self.peer(peer).engine()
    }

    /// The place of the peer that has this token; none where no peer has it.
    pub fn peer_by_token(&self, token: &[u8]) -> Option<u32>
        ensures place { IsPlaceOf (peer_tokens self.now.peers) token.now result }
        ensures known { IfSome result (λ peer. peer < length self.now.peers) }
    {
        self.peers.tokens().find(token)
    }

    /// The place of the peer that has this name; none where no peer has it.
    pub fn peer_by_name(&self, name: &[u8]) -> Option<u32>
        ensures place { IsPlaceOf (peer_names self.now.peers) name.now result }
        ensures known { IfSome result (λ peer. peer < length self.now.peers) }
    {
        self.peers.names().find(name)
    }

    // The peer at a place.
    fn peer(&self, peer: u32) -> &Peer
        requires { peer < length self.now.peers }
        ensures { plain_peer result.now ≡ peer_at self.now peer }
    {
        &self.peers.as_slice()[peer as usize]
    }
}

// Routes.
impl Config {
    /// How many routes there are.
    pub fn routes(&self) -> u32
        ensures { result ≡ length self.now.routes }
    {
        self.routes.len() as u32
    }

    /// The place of the peer to which octets go that name an address (RFC 0015): that of the longest
    /// prefix that matches them, where a prefix matches if it is empty, is the octets, or is followed
    /// in them by a dot. None where no prefix matches, and for octets of the scheme `peer`, which is
    /// never routed.
    pub fn route(&self, octets: &[u8]) -> Option<u32>
        ensures route { IsRoute self.now.routes octets.now result }
        ensures known { IfSome result (λ peer. peer < length self.now.peers) }
        ensures valid { IsValid self.now }
    {
        self.routes.find(octets)
    }
}
