//! What an Access-Accept asks of the pools of addresses.
ghost use Rattle.std.specs.Prelude.{◌≡◌, ◌≤◌, length};
ghost use Rattle.std.specs.List.{list_any};
ghost use Rattle.std.specs.Option.{option_map};
ghost use Rattle.bng_grant.specs.Grants.{gift};
ghost use Rattle.bng_steps.specs.Wished.{IsWished, WishesVerdict};
ghost use Rattle.bng_steps.specs.Wishes.{is_named, is_within, pool_for, wish_among, wish_in, wish_of, Wishes};

use crate::meters::plan_for;
use crate::rules::Rules;
use crate::served::Served;
use crate::store::Store;
use bng_base::{Ip4, Item, ItemKind, NamedRange, SessionNo};
use bng_grant::{Grant, grant_of};
use bng_verdict::verdict_of;

/// What is asked of the pools of addresses: nothing, one address, or any address of the pool at this place, from 0.
#[derive(Clone, Copy)]
pub enum Wish {
    Nothing,
    Address(Ip4),
    Pool(u8),
}

fn is_named(pool: &NamedRange, name: &[u8]) -> bool
    ensures { result ≡ is_named name.now pool.now }
{
    pool.name.as_slice() == name
}

/// The place of the pool that an Accept names (Framed-Pool, RFC 2869 section 5.18), and of the first where it names none.
pub fn pool_for(pools: &[NamedRange], named: Option<&[u8]>) -> Option<u8>
    requires few { length pools.now ≤ 16 }
    ensures { result ≡ pool_for pools.now (option_map (λ n. n.now) named.entry) }
{
    let Some(name) = named else {
        return Some(0);
    };
    let place = pools.iter().position(|p| is_named(p, name))?;
    Some(place as u8)
}

fn is_within(pool: &NamedRange, address: Ip4) -> bool
    ensures { result ≡ is_within address.0 pool.now }
{
    pool.range.first.0 <= address.0 && address.0 <= pool.range.last.0
}

// Whether a pool has this address.
fn has_address(pools: &[NamedRange], address: Ip4) -> bool
    ensures { result ≡ list_any (is_within address.0) pools.now }
{
    pools.iter().any(|p| is_within(p, address))
}

// An address is asked for itself, where a pool has it; else any address of the pool at this place is.
fn wish_in(pools: &[NamedRange], address: Option<Ip4>, place: u8) -> Wish
    ensures { result ≡ wish_in pools.now (option_map (λ a. a.0) address) place }
{
    match address {
        None => Wish::Pool(place),
        Some(address) => {
            if has_address(pools, address) {
                Wish::Address(address)
            } else {
                Wish::Nothing
            }
        }
    }
}

// What an Accept that gives this asks of the pools, where its profile is there.
fn wish_among(pools: &[NamedRange], limited: bool, grant: &Grant<'_>) -> Wish
    requires few { length pools.now ≤ 16 }
    ensures { result ≡ wish_among pools.now limited (gift grant.now) }
{
    if pools.is_empty() {
        return Wish::Nothing;
    }
    let Some(place) = pool_for(pools, grant.pool) else {
        return Wish::Nothing;
    };
    if limited {
        return Wish::Nothing;
    }
    wish_in(pools, grant.address, place)
}

// What it asks by these rules.
fn wish_of(rules: &Rules, limited: bool, grant: &Grant<'_>) -> Wish
    requires few_pools { length rules.now.pools ≤ 16 }
    requires few_profiles { length rules.now.profiles ≤ 16 }
    ensures { result ≡ wish_of rules.now limited (gift grant.now) }
{
    let Some(_) = plan_for(rules.profiles.as_slice(), grant.profile) else {
        return Wish::Nothing;
    };
    wish_among(rules.pools.as_slice(), limited, grant)
}

// What the octets of a reply ask of the pools.
fn octets_wish(rules: &Rules, limited: bool, octets: &[u8]) -> Wish
    requires few_pools { length rules.now.pools ≤ 16 }
    requires few_profiles { length rules.now.profiles ≤ 16 }
    ensures { Wishes rules.now limited octets.now result }
{
    let Some(verdict) = verdict_of(octets) else {
        return Wish::Nothing;
    };
    if !verdict.yes {
        return Wish::Nothing;
    }
    let Some(grant) = grant_of(octets) else {
        unreachable!();
    };
    wish_of(rules, limited, &grant)
}

// What a verdict asks, where the question that it names is open.
fn verdict_wish<S: Store>(served: &Served<S>, rules: &Rules, item: &Item, limited: bool) -> Wish
    requires few_pools { length rules.now.pools ≤ 16 }
    requires few_profiles { length rules.now.profiles ≤ 16 }
    ensures { WishesVerdict rules.now served.now item.now limited result }
{
    if served.open_number(SessionNo(item.target)) != Some(item.ask) {
        return Wish::Nothing;
    }
    octets_wish(rules, limited, item.frame.payload())
}

/// What an item asks of the pools of addresses, where the shard's allowance of new terms is used up (`limited`) or is not. Only a
/// verdict on an open question asks for an address.
pub fn wish_for<S: Store>(served: &Served<S>, rules: &Rules, item: &Item, limited: bool) -> Wish
    requires few_pools { length rules.now.pools ≤ 16 }
    requires few_profiles { length rules.now.profiles ≤ 16 }
    ensures { IsWished rules.now served.now item.now limited result }
{
    match item.kind {
        ItemKind::Verdict => verdict_wish(served, rules, item, limited),
        ItemKind::Access(_)
        | ItemKind::Core
        | ItemKind::Tunnel
        | ItemKind::Change
        | ItemKind::Tick
        | ItemKind::End => Wish::Nothing,
    }
}
