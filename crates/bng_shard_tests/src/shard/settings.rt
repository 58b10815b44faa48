//! The rules of the shards that are tested.
ghost use Rattle.std.specs.Prelude.{◌≡◌, ◌<◌, ◌≤◌, [], ◌∷◌, IfOk, length, map};
ghost use Rattle.bng_profile.specs.Books.{AreDifferent, names_of};

use arrayvec::ArrayVec;
use bng_base::{
    AccessPort, AuthKind, Ip4, Lac, Listed, Mac, NamedRange, Peer, Profile, Range, Rate,
};
use bng_discovery::PortRules;
use bng_ppp::LinkRules;
use bng_steps::Rules;
use std::alloc::{AllocError, Global};

const PORT: Mac = Mac([2, 0, 0, 0, 0, 0xfe]);

pub(super) const KEY: [u8; 16] = [0, 1, 2, 3, 4, 5, 6, 7, 8, 9, 10, 11, 12, 13, 14, 15];

pub(super) fn peer(port: u16) -> Peer {
    Peer {
        ip: Ip4(0x7f000001),
        port,
    }
}

pub(super) fn text<const N: usize>(octets: &[u8]) -> ArrayVec<u8, N> {
    let mut text = ArrayVec::new();
    for octet in octets {
        if !text.is_full() {
            text.push(*octet);
        }
    }
    text
}

fn offers() -> PortRules {
    let mut services = ArrayVec::new();
    services.push(text(b"inet"));
    PortRules {
        port: 1,
        mac: PORT,
        key: KEY,
        name: text(b"bng1"),
        services,
    }
}

fn links() -> LinkRules
    ensures { 0 < length result.auth.items }
{
    LinkRules {
        name: text(b"bng1"),
        address: Ip4(0x0a000001),
        dns: [None, None],
        auth: ArrayVec::from([AuthKind::Pap, AuthKind::Chap]),
        echo: 0,
    }
}

// The addresses 10.0.0.2 and 10.0.0.3.
pub(super) const TWO: Range = Range {
    first: Ip4(0x0a000002),
    last: Ip4(0x0a000003),
};

// The address 10.0.0.2.
pub(super) const ONE: Range = Range {
    first: Ip4(0x0a000002),
    last: Ip4(0x0a000002),
};

// 84 octets a second, and 28 at once.
const SLOW: Rate = Rate {
    cir: 84,
    cbs: 28,
    ebs: 0,
};

// A profile of this name that meters the packets of a subscriber by this rate, and none towards it.
fn profile(name: &[u8], up: Option<Rate>) -> Profile
    requires { length name.now ≤ 32 }
    ensures { result.name.items ≡ name.now }
{
    let mut letters = ArrayVec::new();
    let Ok(()) = letters.try_extend_from_slice(name) else {
        unreachable!()
    };
    Profile {
        name: letters,
        up,
        down: None,
    }
}

// Two profiles, of which the second meters.
fn profiles(alloc: Global) -> Result<Vec<Profile>, AllocError>
    ensures two { IfOk result (λ ps. length ps.items ≡ 2) }
    ensures different { IfOk result (λ ps. AreDifferent (names_of ps.items)) }
{
    let list = Vec::from_array(
        alloc,
        [profile(b"bronze", None), profile(b"gold", Some(SLOW))],
    )?;
    Ok(list)
}

// The access port 1.
fn port() -> AccessPort {
    AccessPort {
        local: peer(9010),
        peer: peer(9011),
        mac: PORT,
    }
}

fn access(alloc: Global) -> Result<Listed<AccessPort>, AllocError>
    ensures { IfOk result (λ l. length l ≡ 1) }
{
    let list = Vec::from_array(alloc, [port()])?;
    Ok(Listed::of(list))
}

fn offered(alloc: Global) -> Result<Listed<PortRules>, AllocError>
    ensures { IfOk result (λ l. length l ≡ 1) }
{
    let list = Vec::from_array(alloc, [offers()])?;
    Ok(Listed::of(list))
}

// The access concentrator 127.0.0.1.
fn lacs(alloc: Global) -> Result<Listed<Lac>, AllocError> {
    let lac = Lac {
        ip: Ip4(0x7f000001),
        secret: None,
    };
    let list = Vec::from_array(alloc, [lac])?;
    Ok(Listed::of(list))
}

type Lists = (
    Listed<AccessPort>,
    Listed<PortRules>,
    Listed<Profile>,
    Listed<Lac>,
);

// The lists of the rules, but for the pools.
fn lists(alloc: Global) -> Result<Lists, AllocError>
    ensures access { IfOk result (λ t. length t.0 ≡ 1) }
    ensures offers { IfOk result (λ t. length t.1 ≡ 1) }
    ensures profiles { IfOk result (λ t. length t.2 ≡ 2) }
    ensures different { IfOk result (λ t. AreDifferent (names_of t.2)) }
{
    let access = access(alloc)?;
    let offers = offered(alloc)?;
    let profiles = profiles(alloc)?;
    let lacs = lacs(alloc)?;
    Ok((access, offers, Listed::of(profiles), lacs))
}

// One shard, the port 1, these pools, two profiles, and the access concentrator 127.0.0.1.
fn rules_over(alloc: Global, pools: Vec<NamedRange>) -> Result<Rules, AllocError>
    ensures auth { IfOk result (λ r. 0 < length r.link.auth.items) }
    ensures access { IfOk result (λ r. length r.access ≡ 1) }
    ensures offers { IfOk result (λ r. length r.offers ≡ 1) }
    ensures profiles { IfOk result (λ r. length r.profiles ≡ 2) }
    ensures different { IfOk result (λ r. AreDifferent (names_of r.profiles)) }
    ensures pools { IfOk result (λ r. r.pools ≡ pools.items) }
    ensures shards { IfOk result (λ r. r.shards ≡ 1) }
{
    let (access, offers, profiles, lacs) = lists(alloc)?;
    Ok(Rules {
        shards: 1,
        core_peer: peer(9001),
        access,
        offers,
        pools: Listed::of(pools),
        profiles,
        link: links(),
        lacs,
        serves_tunnels: true,
        nas_ip: Ip4(0xc0a80110),
        wall: 1_700_000_000,
        serves_changes: true,
    })
}

// The same with no pool.
pub(super) fn rules(alloc: Global) -> Result<Rules, AllocError>
    ensures auth { IfOk result (λ r. 0 < length r.link.auth.items) }
    ensures access { IfOk result (λ r. length r.access ≡ 1) }
    ensures offers { IfOk result (λ r. length r.offers ≡ 1) }
    ensures profiles { IfOk result (λ r. length r.profiles ≡ 2) }
    ensures different { IfOk result (λ r. AreDifferent (names_of r.profiles)) }
    ensures pools { IfOk result (λ r. r.pools ≡ []) }
    ensures shards { IfOk result (λ r. r.shards ≡ 1) }
{
    rules_over(alloc, Vec::new(alloc))
}

// The same with this pool, whose name is main.
pub(super) fn rules_with(alloc: Global, range: Range) -> Result<Rules, AllocError>
    ensures auth { IfOk result (λ r. 0 < length r.link.auth.items) }
    ensures access { IfOk result (λ r. length r.access ≡ 1) }
    ensures offers { IfOk result (λ r. length r.offers ≡ 1) }
    ensures profiles { IfOk result (λ r. length r.profiles ≡ 2) }
    ensures different { IfOk result (λ r. AreDifferent (names_of r.profiles)) }
    ensures pools { IfOk result (λ r. map (λ p. p.range) r.pools ≡ range ∷ []) }
{
    let name = text(b"main");
    let pools = Vec::from_array(alloc, [NamedRange { name, range }])?;
    rules_over(alloc, pools)
}
