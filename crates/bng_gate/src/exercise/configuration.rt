//! The configuration of an exercise.
ghost use Rattle.std.specs.Prelude.{◌≡◌, ◌≤◌, [], ◌∷◌, IfOk, codes, length, map};
ghost use Rattle.std.specs.List.{All};
ghost use Rattle.bng_base.specs.declared.settings.AuthKind.TheVariants.{Chap, Pap};
ghost use Rattle.bng_config.specs.Pools.{ranges_of};
ghost use Rattle.bng_gate.specs.Exercise.{IsExercise, IsUnmetered, SharesT, ip as address_of, loopback as end_at, the_port, the_range};

use arrayvec::ArrayVec;
use bng_base::{AccessPort, AuthKind, Ip4, Lac, Listed, Mac, NamedRange, Peer, Profile, Range};
use bng_config::Config;
use std::alloc::{AllocError, Global};

/// These octets.
fn octets<const N: usize>(text: &[u8]) -> ArrayVec<u8, N>
    requires { length text.now ≤ N }
    ensures { result.items ≡ text.now }
{
    let Ok(octets) = ArrayVec::try_from(text) else {
        unreachable!();
    };
    octets
}

/// The end of a socket of this host.
fn loopback(port: u16) -> Peer
    ensures { result ≡ end_at port }
{
    Peer {
        ip: Ip4(0x7f00_0001),
        port,
    }
}

fn services() -> ArrayVec<ArrayVec<u8, 64>, 12>
    ensures { map (λ s. s.items) result.items ≡ codes "inet" ∷ [] }
{
    let mut services = ArrayVec::new();
    services.push(octets(b"inet"));
    services
}

fn kinds() -> ArrayVec<AuthKind, 2>
    ensures { result.items ≡ Chap ∷ Pap ∷ [] }
{
    let mut kinds = ArrayVec::new();
    kinds.push(AuthKind::Chap);
    kinds.push(AuthKind::Pap);
    kinds
}

fn access(alloc: Global) -> Result<Listed<AccessPort>, AllocError>
    ensures { IfOk result (λ ports. ports ≡ the_port ∷ []) }
{
    let mut ports = Vec::new(alloc);
    ports.push(AccessPort {
        local: loopback(9010),
        peer: loopback(9011),
        mac: Mac([2, 0, 0, 0, 0, 0xfe]),
    })?;
    Ok(Listed::of(ports))
}

fn pools(alloc: Global) -> Result<Listed<NamedRange>, AllocError>
    ensures names { IfOk result (λ pools. map (λ p. p.name.items) pools ≡ codes "main" ∷ []) }
    ensures ranges { IfOk result (λ pools. ranges_of pools ≡ the_range ∷ []) }
{
    let mut pools = Vec::new(alloc);
    pools.push(NamedRange {
        name: octets(b"main"),
        range: Range {
            first: Ip4(0x0a00_0002),
            last: Ip4(0x0a00_fffe),
        },
    })?;
    Ok(Listed::of(pools))
}

fn profiles(alloc: Global) -> Result<Listed<Profile>, AllocError>
    ensures names { IfOk result (λ profiles. map (λ p. p.name.items) profiles ≡ codes "default" ∷ []) }
    ensures unmetered { IfOk result (λ profiles. All IsUnmetered profiles) }
{
    let mut profiles = Vec::new(alloc);
    profiles.push(Profile {
        name: octets(b"default"),
        up: None,
        down: None,
    })?;
    Ok(Listed::of(profiles))
}

fn lac(address: u32) -> Lac
    ensures at { result.ip ≡ address_of address }
    ensures secret { SharesT result }
{
    Lac {
        ip: Ip4(address),
        secret: Some(octets(b"t")),
    }
}

fn lacs(alloc: Global) -> Result<Listed<Lac>, AllocError>
    ensures addresses { IfOk result (λ lacs. map (λ l. l.ip) lacs ≡ address_of 2130706434 ∷ address_of 2130706435 ∷ []) }
    ensures secrets { IfOk result (λ lacs. All SharesT lacs) }
{
    let mut lacs = Vec::new(alloc);
    lacs.push(lac(0x7f00_0002))?;
    lacs.push(lac(0x7f00_0003))?;
    Ok(Listed::of(lacs))
}

/// The configuration of an exercise with so many workers, 1 to 16: one access port, two access concentrators, one pool and one profile
/// that meters nothing.
pub(crate) fn configuration(alloc: Global, workers: u16) -> Result<Config, AllocError>
    requires some { 1 ≤ workers }
    requires few { workers ≤ 16 }
    ensures { IfOk result (λ config. IsExercise workers config) }
{
    Ok(Config {
        name: octets(b"bng1"),
        shards: 64,
        services: services(),
        auth: kinds(),
        echo: 30,
        control_local: loopback(9002),
        core_local: loopback(9000),
        core_peer: loopback(9001),
        access: access(alloc)?,
        statics: Listed::of(Vec::new(alloc)),
        nas_ip: Ip4(0xc0a8_0110),
        auth_local: loopback(9003),
        auth_server: loopback(1812),
        secret: octets(b"xyzzy5461"),
        tries: 4,
        terms: 16384,
        acct_local: loopback(9004),
        acct_server: loopback(1813),
        address: Ip4(0x0a00_0001),
        dns: ArrayVec::new(),
        pools: pools(alloc)?,
        profiles: profiles(alloc)?,
        workers,
        tunnel_local: Some(loopback(1701)),
        lacs: lacs(alloc)?,
        coa: None,
    })
}
