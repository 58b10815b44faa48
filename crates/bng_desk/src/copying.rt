//! What a configuration and its rules say, again.
ghost use Rattle.std.specs.Prelude.{◌≡◌, IfOk};

use crate::desk::DeskError;
use arrayvec::ArrayVec;
use bng_base::{AccessPort, AuthKind, Ip4, Lac, Listed, NamedRange, Profile};
use bng_discovery::PortRules;
use bng_ppp::LinkRules;
use bng_steps::Rules;
use std::alloc::Global;

/// The same octets again.
pub(crate) fn copied<const N: usize>(text: &ArrayVec<u8, N>) -> ArrayVec<u8, N>
    ensures { result ≡ text.now }
{
    let Ok(copy) = ArrayVec::try_from(text.as_slice()) else {
        unreachable!();
    };
    copy
}

/// The same texts again.
pub(crate) fn all_copied(texts: &ArrayVec<ArrayVec<u8, 64>, 12>) -> ArrayVec<ArrayVec<u8, 64>, 12>
    ensures { result.items ≡ texts.now.items }
{
    let mut copies = ArrayVec::new();
    for text in texts.as_slice() {
        copies.push(copied(text));
    }
    copies
}

/// The same ways to authenticate again.
pub(crate) fn kinds_copied(kinds: &ArrayVec<AuthKind, 2>) -> ArrayVec<AuthKind, 2>
    ensures { result ≡ kinds.now }
{
    let Ok(copy) = ArrayVec::try_from(kinds.as_slice()) else {
        unreachable!();
    };
    copy
}

/// The same addresses again.
pub(crate) fn peers_copied(peers: &ArrayVec<Ip4, 16>) -> ArrayVec<Ip4, 16>
    ensures { result ≡ peers.now }
{
    let Ok(copy) = ArrayVec::try_from(peers.as_slice()) else {
        unreachable!();
    };
    copy
}

// What a link is run by, again.
fn link_copied(link: &LinkRules) -> LinkRules
    ensures { result ≡ link.now }
{
    LinkRules {
        name: copied(&link.name),
        address: link.address,
        dns: link.dns,
        auth: kinds_copied(&link.auth),
        echo: link.echo,
    }
}

// What a port offers, again.
fn offer_copied(offer: &PortRules) -> PortRules
    ensures { result ≡ offer.now }
{
    PortRules {
        port: offer.port,
        mac: offer.mac,
        key: offer.key,
        name: copied(&offer.name),
        services: all_copied(&offer.services),
    }
}

// The same offers again.
fn offers_copied(alloc: Global, offers: &[PortRules]) -> Result<Vec<PortRules>, DeskError>
    ensures { IfOk result (λ copies. copies.items ≡ offers.now) }
{
    let Ok(mut copies) = Vec::with_capacity(alloc, offers.len()) else {
        return Err(DeskError::OutOfMemory);
    };
    for offer in offers {
        copies.push_reserved(offer_copied(offer));
    }
    Ok(copies)
}

/// The same ports again.
pub(crate) fn ports_copied(
    alloc: Global,
    ports: &[AccessPort],
) -> Result<Vec<AccessPort>, DeskError>
    ensures { IfOk result (λ copies. copies.items ≡ ports.now) }
{
    let mut copies = Vec::new(alloc);
    match copies.extend_from_slice(ports) {
        Ok(()) => Ok(copies),
        Err(_) => Err(DeskError::OutOfMemory),
    }
}

// The same pool again.
fn pool_copied(pool: &NamedRange) -> NamedRange
    ensures { result ≡ pool.now }
{
    NamedRange {
        name: copied(&pool.name),
        range: pool.range,
    }
}

/// The same pools again.
pub(crate) fn pools_copied(
    alloc: Global,
    pools: &[NamedRange],
) -> Result<Vec<NamedRange>, DeskError>
    ensures { IfOk result (λ copies. copies.items ≡ pools.now) }
{
    let Ok(mut copies) = Vec::with_capacity(alloc, pools.len()) else {
        return Err(DeskError::OutOfMemory);
    };
    for pool in pools {
        copies.push_reserved(pool_copied(pool));
    }
    Ok(copies)
}

// The same profile again.
fn profile_copied(profile: &Profile) -> Profile
    ensures { result ≡ profile.now }
{
    Profile {
        name: copied(&profile.name),
        up: profile.up,
        down: profile.down,
    }
}

/// The same profiles again.
pub(crate) fn profiles_copied(
    alloc: Global,
    profiles: &[Profile],
) -> Result<Vec<Profile>, DeskError>
    ensures { IfOk result (λ copies. copies.items ≡ profiles.now) }
{
    let Ok(mut copies) = Vec::with_capacity(alloc, profiles.len()) else {
        return Err(DeskError::OutOfMemory);
    };
    for profile in profiles {
        copies.push_reserved(profile_copied(profile));
    }
    Ok(copies)
}

// A secret again, where one is shared.
fn secret_copied(secret: &Option<ArrayVec<u8, 64>>) -> Option<ArrayVec<u8, 64>>
    ensures { result ≡ secret.now }
{
    match secret {
        Some(secret) => Some(copied(secret)),
        None => None,
    }
}

// The same access concentrator again.
fn lac_copied(lac: &Lac) -> Lac
    ensures { result ≡ lac.now }
{
    Lac {
        ip: lac.ip,
        secret: secret_copied(&lac.secret),
    }
}

/// The same access concentrators again.
pub(crate) fn lacs_copied(alloc: Global, lacs: &[Lac]) -> Result<Vec<Lac>, DeskError>
    ensures { IfOk result (λ copies. copies.items ≡ lacs.now) }
{
    let Ok(mut copies) = Vec::with_capacity(alloc, lacs.len()) else {
        return Err(DeskError::OutOfMemory);
    };
    for lac in lacs {
        copies.push_reserved(lac_copied(lac));
    }
    Ok(copies)
}

/// The same rules again, for one shard more.
pub(crate) fn rules_copied(alloc: Global, rules: &Rules) -> Result<Rules, DeskError>
    ensures { IfOk result (λ copy. copy ≡ rules.now) }
{
    let access = ports_copied(alloc, rules.access.as_slice())?;
    let offers = offers_copied(alloc, rules.offers.as_slice())?;
    let pools = pools_copied(alloc, rules.pools.as_slice())?;
    let profiles = profiles_copied(alloc, rules.profiles.as_slice())?;
    let lacs = lacs_copied(alloc, rules.lacs.as_slice())?;
    Ok(Rules {
        shards: rules.shards,
        core_peer: rules.core_peer,
        access: Listed::of(access),
        offers: Listed::of(offers),
        pools: Listed::of(pools),
        profiles: Listed::of(profiles),
        lacs: Listed::of(lacs),
        serves_tunnels: rules.serves_tunnels,
        nas_ip: rules.nas_ip,
        wall: rules.wall,
        serves_changes: rules.serves_changes,
        link: link_copied(&rules.link),
    })
}
