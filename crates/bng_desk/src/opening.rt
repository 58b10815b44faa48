//! What a desk is opened with.
ghost use Rattle.std.specs.Prelude.{◌≡◌, ◌≤◌, ◌<◌, ◌==◌, ◌/◌, ◌^◌, [], ℕ, false, IfOk, is_some, length, map, filter, option_map};
ghost use Rattle.std.specs.List.{All, AllPairs, range_with_len};
ghost use Rattle.bng_acct.specs.Roster.{same};
ghost use Rattle.bng_base.specs.declared.settings.NamedRange.{NamedRange};
ghost use Rattle.bng_pool.specs.Ranges.{ArePoolRanges, HasAddress};
ghost use Rattle.bng_pool.specs.Tables.{entry};
ghost use Rattle.bng_profile.specs.Books.{AreDifferent, names_of};
ghost use Rattle.bng_steps.specs.Interims.{no_reports};
ghost use Rattle.bng_steps.specs.Lasting.{AreTenures};
ghost use Rattle.bng_steps.specs.Protocol.{opened};
ghost use Rattle.bng_lane.specs.State.{IsNewLane};
ghost use Rattle.bng_steps.specs.Questions.{none_handed};
ghost use Rattle.bng_desk.specs.Opening.{coa_of, line_of, shard_of, circuit_with, dns_of, lane_rules, billing_rules, AreOffersOf, AreServed, IsOpenedPool, OpensAccounts};
ghost use Rattle.bng_desk.specs.Model.{keys_in};
ghost use Rattle.bng_desk.specs.Taking.{HasFewSessions, HasRows};

use crate::accounts::{Accounts, NO_STOPS};
use crate::copying::{
    all_copied, copied, kinds_copied, lacs_copied, peers_copied, pools_copied, ports_copied,
    profiles_copied, rules_copied,
};
use crate::desk::DeskError;
use crate::line::CircuitLine;
use crate::starts::start_all;
use crate::sums::NO_TRAFFIC;
use arrayvec::ArrayVec;
use bng_access::NasRules;
use bng_acct::AcctRules;
use bng_base::{AccessPort, CoaPart, Ip4, Listed, NamedRange, Range, Static};
use bng_billing::{Billing, BillingRules};
use bng_coa::{CoaDesk, CoaRules};
use bng_config::Config;
use bng_discovery::PortRules;
use bng_lane::{Questions, LaneRules};
use bng_pool::PlainPool;
use bng_ppp::LinkRules;
use bng_shard::Shard;
use bng_steps::{Handed, Reports, Rules};
use std::alloc::Global;

// The DNS servers that a subscriber is told.
fn dns(servers: &ArrayVec<Ip4, 2>) -> [Option<Ip4>; 2]
    ensures { result ≡ dns_of servers.now.items }
{
    let servers = servers.as_slice();
    [servers.get(0).copied(), servers.get(1).copied()]
}

/// By what all shards work. `wall` is the second on the wall at which the run opened.
pub(crate) fn rules(
    alloc: Global,
    config: &Config,
    offers: Vec<PortRules>,
    wall: u64,
) -> Result<Rules, DeskError>
    ensures { IfOk result (λ r. r ≡ record { shards = config.now.shards; core_peer = config.now.core_peer; access = config.now.access; offers = offers.items; pools = config.now.pools; profiles = config.now.profiles; lacs = config.now.lacs; serves_tunnels = is_some config.now.tunnel_local; nas_ip = config.now.nas_ip; wall = wall; serves_changes = is_some config.now.coa; link = record { name = config.now.name; address = config.now.address; dns = dns_of config.now.dns.items; auth = config.now.auth; echo = config.now.echo } }) }
{
    let access = ports_copied(alloc, config.access.as_slice())?;
    let pools = pools_copied(alloc, config.pools.as_slice())?;
    let profiles = profiles_copied(alloc, config.profiles.as_slice())?;
    let lacs = lacs_copied(alloc, config.lacs.as_slice())?;
    Ok(Rules {
        shards: config.shards,
        core_peer: config.core_peer,
        access: Listed::of(access),
        offers: Listed::of(offers),
        pools: Listed::of(pools),
        profiles: Listed::of(profiles),
        lacs: Listed::of(lacs),
        serves_tunnels: config.tunnel_local.is_some(),
        nas_ip: config.nas_ip,
        wall,
        serves_changes: config.coa.is_some(),
        link: LinkRules {
            name: copied(&config.name),
            address: config.address,
            dns: dns(&config.dns),
            auth: kinds_copied(&config.auth),
            echo: config.echo,
        },
    })
}

/// What the access ports offer, by their numbers.
pub(crate) fn offers(
    alloc: Global,
    access: &[AccessPort],
    key: [u8; 16],
    name: &ArrayVec<u8, 64>,
    services: &ArrayVec<ArrayVec<u8, 64>, 12>,
) -> Result<Vec<PortRules>, DeskError>
    requires { length access.now ≤ 16 }
    ensures { IfOk result (λ offers. AreOffersOf name.now.items services.now.items key 1 access.now offers.items) }
{
    let Ok(mut offers) = Vec::with_capacity(alloc, access.len()) else {
        return Err(DeskError::OutOfMemory);
    };
    for (place, port) in access.iter().enumerate() {
        offers.push_reserved(PortRules {
            port: place as u8 + 1,
            mac: port.mac,
            key,
            name: copied(name),
            services: all_copied(services),
        });
    }
    Ok(offers)
}

/// The lane of the questions at the RADIUS server, with none.
pub(crate) fn lane(alloc: Global, config: &Config) -> Result<Questions, DeskError>
    ensures { IfOk result (λ l. IsNewLane (lane_rules config.now) l) }
{
    let nas = NasRules {
        name: copied(&config.name),
        nas_ip: config.nas_ip,
    };
    let rules = LaneRules {
        nas,
        server: config.auth_server,
        secret: copied(&config.secret),
        tries: config.tries,
    };
    match Questions::open(alloc, rules) {
        Ok(lane) => Ok(lane),
        Err(_) => Err(DeskError::OutOfMemory),
    }
}

// Who may ask for changes, and the secret; nobody may where the configuration has no such part.
fn coa_rules(part: &Option<CoaPart>) -> CoaRules
    ensures { coa_of part.now ≡ record { peers = result.peers.items; secret = result.secret.items; requests = [] } }
{
    match part {
        Some(part) => CoaRules {
            peers: peers_copied(&part.peers),
            secret: copied(&part.secret),
        },
        None => CoaRules {
            peers: ArrayVec::new(),
            secret: ArrayVec::new(),
        },
    }
}

/// The requests for changes, of which none is in hand.
pub(crate) fn coa(alloc: Global, part: &Option<CoaPart>) -> Result<CoaDesk, DeskError>
    ensures { IfOk result (λ c. c ≡ coa_of part.now) }
{
    let rules = coa_rules(part);
    match CoaDesk::open(alloc, &rules) {
        Ok(desk) => Ok(desk),
        Err(_) => Err(DeskError::OutOfMemory),
    }
}

/// What accounting is opened with: for how many terms there is room, the second on the wall at which the run opened, what a record says
/// of the gateway, the server, and the secret.
pub(crate) fn billing_rules(config: &Config, wall: u64) -> BillingRules
    ensures { result ≡ billing_rules config.now wall }
{
    let acct = AcctRules {
        terms: config.terms,
        wall,
        name: copied(&config.name),
        nas_ip: config.nas_ip,
    };
    BillingRules {
        acct,
        server: config.acct_server,
        secret: copied(&config.secret),
    }
}

/// Accounting over these lines, with the Start of each term that the shards have, of the first shard first and in each in the order in
/// which they began, at this moment and at the rules' second on the wall. There is room for the terms, no two are one,
/// and each has a row.
pub(crate) fn accounts(
    alloc: Global,
    rules: BillingRules,
    lines: Vec<CircuitLine>,
    reports: Vec<Reports>,
    shards: &[Shard],
    now: u64,
) -> Result<Accounts, DeskError>
    requires most { rules.acct.terms ≤ 262144 }
    requires room { length (keys_in shards.now) ≤ rules.acct.terms }
    requires apart { AllPairs (λ j k. same j.term k.term ≡ false) (keys_in shards.now) }
    requires rows { All HasRows shards.now }
    requires terms { All (λ v. AreTenures now v.state.slots) shards.now }
    ensures { IfOk result (λ a. OpensAccounts rules lines.items reports.items shards.now now a) }
{
    let wall = rules.acct.wall;
    let Ok(billing) = Billing::open(alloc, rules) else {
        return Err(DeskError::OutOfMemory);
    };
    let mut accounts = Accounts {
        lines,
        stopped: NO_STOPS,
        billing,
        reports,
    };
    for shard in shards {
        start_all(shard, &mut accounts, now, wall);
    }
    Ok(accounts)
}

/// Of each shard which questions it handed out, and which Interims were taken of it: none.
pub(crate) fn notes(alloc: Global, shards: u16) -> Result<(Vec<Handed>, Vec<Reports>), DeskError>
    ensures handed { IfOk result (λ lists. lists.0.items ≡ map (λ n. none_handed) (range_with_len 0 shards)) }
    ensures reports { IfOk result (λ lists. lists.1.items ≡ map (λ n. no_reports) (range_with_len 0 shards)) }
{
    let count = usize::from(shards);
    let (Ok(mut handed), Ok(mut reports)) = (
        Vec::with_capacity(alloc, count),
        Vec::with_capacity(alloc, count),
    ) else {
        return Err(DeskError::OutOfMemory);
    };
    for _shard in 0..shards {
        let (Ok(questions), Ok(interims)) = (Handed::open(alloc), Reports::open(alloc)) else {
            return Err(DeskError::OutOfMemory);
        };
        handed.push_reserved(questions);
        reports.push_reserved(interims);
    }
    Ok((handed, reports))
}

/// How the report names the circuits.
pub(crate) fn lines(alloc: Global, circuits: &[Static]) -> Result<Vec<CircuitLine>, DeskError>
    ensures { IfOk result (λ lines. lines.items ≡ map line_of circuits.now) }
{
    let named = circuits.iter().map(|circuit| CircuitLine {
        session: circuit.session,
        address: circuit.address,
        stopped: NO_TRAFFIC,
    });
    match named.collect(alloc) {
        Ok(lines) => Ok(lines),
        Err(_) => Err(DeskError::OutOfMemory),
    }
}

// The addresses of each pool.
fn ranges(alloc: Global, pools: &[NamedRange]) -> Result<Vec<Range>, DeskError>
    ensures { IfOk result (λ ranges. ranges.items ≡ map (λ (p : NamedRange). p.range) pools.now) }
{
    match pools.iter().map(|pool| pool.range).collect(alloc) {
        Ok(ranges) => Ok(ranges),
        Err(_) => Err(DeskError::OutOfMemory),
    }
}

// Each circuit's address is held by the circuit's shard from then on.
fn claim_all(pool: &mut PlainPool, circuits: &[Static])
    requires none { pool.old.table ≡ [] }
    requires inside { All (λ c. shard_of c < pool.old.shards) circuits.now }
    requires within { All (λ c. HasAddress pool.old.ranges c.address.0) circuits.now }
    ensures claimed { (a : ℕ) → entry pool.new.table a ≡ option_map shard_of (circuit_with circuits.now a) }
    ensures rest { (pool.new.ranges ≡ pool.old.ranges) × (pool.new.shards ≡ pool.old.shards) }
{
    for circuit in circuits {
        pool.claim(circuit.session.0 / 1024, circuit.address);
    }
}

/// Who holds each address of the pools: a circuit's is held by the circuit's shard, and no other is held.
pub(crate) fn pool(alloc: Global, config: &Config) -> Result<PlainPool, DeskError>
    requires shards { (1 ≤ config.now.shards) × (config.now.shards ≤ 64) }
    requires ranges { ArePoolRanges (map (λ (p : NamedRange). p.range) config.now.pools) }
    requires inside { All (λ c. shard_of c < config.now.shards) config.now.statics }
    requires within { All (λ c. HasAddress (map (λ (p : NamedRange). p.range) config.now.pools) c.address.0) config.now.statics }
    ensures { IfOk result (λ p. IsOpenedPool config.now p) }
{
    let ranges = ranges(alloc, config.pools.as_slice())?;
    let Ok(mut pool) = PlainPool::open(alloc, ranges.as_slice(), config.shards) else {
        return Err(DeskError::OutOfMemory);
    };
    claim_all(&mut pool, config.statics.as_slice());
    Ok(pool)
}

// So many empty lists.
fn empties(alloc: Global, shards: u16) -> Result<Vec<Vec<Static>>, DeskError>
    ensures { IfOk result (λ lists. map (λ l. l.items) lists.items ≡ map (λ n. []) (range_with_len 0 shards)) }
{
    let Ok(mut lists) = Vec::with_capacity(alloc, usize::from(shards)) else {
        return Err(DeskError::OutOfMemory);
    };
    for _shard in 0..shards {
        lists.push_reserved(Vec::new(alloc));
    }
    Ok(lists)
}

// The circuits of each shard, in their order.
fn dealt(alloc: Global, shards: u16, circuits: Vec<Static>) -> Result<Vec<Vec<Static>>, DeskError>
    requires { All (λ c. shard_of c < shards) circuits.items }
    ensures { IfOk result (λ lists. map (λ l. l.items) lists.items ≡ map (λ n. filter (λ c. shard_of c == n) circuits.items) (range_with_len 0 shards)) }
{
    let mut lists = empties(alloc, shards)?;
    for circuit in circuits {
        let shard = usize::from(circuit.session.0 / 1024);
        if lists[shard].push(circuit).is_err() {
            return Err(DeskError::OutOfMemory);
        }
    }
    Ok(lists)
}

/// The shards that these rules name, each with its circuits and with rules of its own, opened at this moment.
pub(crate) fn shards(
    alloc: Global,
    rules: &Rules,
    circuits: Vec<Static>,
    now: u64,
) -> Result<Vec<Shard>, DeskError>
    requires moment { now < 2 ^ 60 }
    requires few { rules.now.shards ≤ 64 }
    requires few_pools { length rules.now.pools ≤ 16 }
    requires some_profile { 0 < length rules.now.profiles }
    requires few_profiles { length rules.now.profiles ≤ 16 }
    requires different { AreDifferent (names_of rules.now.profiles) }
    requires circuits { AreServed rules.now circuits.items }
    requires offers { length rules.now.offers ≡ length rules.now.access }
    requires auth { 0 < length rules.now.link.auth.items }
    ensures opened { IfOk result (λ opens. opens.items ≡ map (λ n. opened n rules.now (filter (λ c. shard_of c == n) circuits.items) now) (range_with_len 0 rules.now.shards)) }
    ensures sessions { IfOk result (λ opens. All HasFewSessions opens.items) }
{
    let lists = dealt(alloc, rules.shards, circuits)?;
    let Ok(mut opens) = Vec::with_capacity(alloc, usize::from(rules.shards)) else {
        return Err(DeskError::OutOfMemory);
    };
    let mut number = 0;
    for circuits in lists {
        let own = rules_copied(alloc, rules)?;
        let Ok(shard) = Shard::open(alloc, number, own, circuits.as_slice(), now) else {
            return Err(DeskError::OutOfMemory);
        };
        opens.push_reserved(shard);
        number += 1;
    }
    Ok(opens)
}
