//! By what a term is metered, and its meters.
ghost use Rattle.std.specs.Prelude.{◌≡◌, ◌≢◌, ◌<◌, ◌≤◌, IfOk, length, option_map};
ghost use Rattle.std.specs.List.{AllPairs};
ghost use Rattle.bng_meter.specs.Bucket.{started as full};
ghost use Rattle.bng_steps.specs.Metered.{first_place, is_called, meters_in, meters_of, no_meters, place_for, plan_at, plan_for};
ghost use Rattle.bng_steps.specs.Opening.{circuit_at, circuit_meters, opened_meters};

use crate::served::{SPAN, circuit_with};
use bng_base::{Profile, Rate, SessionNo, Static};
use bng_forward::TermView;
use bng_meter::Meter;
use std::alloc::{AllocError, Global};

/// By what a term is metered: the place of its profile in the list of profiles, from 0, and the rates of that profile, of packets from
/// the subscriber (`up`) and of those towards it. `None` is unmetered.
#[derive(Clone, Copy)]
pub struct Plan {
    pub profile: u8,
    pub up: Option<Rate>,
    pub down: Option<Rate>,
}

/// The meters of a term: of packets from the subscriber (`input`), and of those towards it. `None` is unmetered.
#[derive(Clone, Copy)]
pub struct Meters {
    pub input: Option<Meter>,
    pub output: Option<Meter>,
}

/// The plan of a peer that is refused, and so has no term.
pub const UNMETERED: Plan = Plan {
    profile: 0,
    up: None,
    down: None,
};

// A meter of this rate that starts at this moment, in milliseconds.
fn started(rate: Option<Rate>, now: u64) -> Option<Meter>
    ensures { result ≡ option_map (λ r. full r now) rate }
{
    match rate {
        Some(rate) => Some(Meter::new(rate, now)),
        None => None,
    }
}

impl Meters {
    /// Those of a session that has no term.
    pub fn none() -> Meters
        ensures { result ≡ no_meters }
    {
        Meters {
            input: None,
            output: None,
        }
    }

    /// Those of a term of this plan, which start full at this moment, in milliseconds.
    pub fn start(plan: Plan, now: u64) -> Meters
        ensures { result ≡ meters_of plan now }
    {
        Meters {
            input: started(plan.up, now),
            output: started(plan.down, now),
        }
    }

    /// Those that a view of a term has.
    pub fn from_view(view: Option<TermView>) -> Meters
        ensures { result ≡ meters_in view }
    {
        match view {
            Some(view) => Meters {
                input: view.input,
                output: view.output,
            },
            None => Meters::none(),
        }
    }
}

/// The plan of the profile at this place, from 0.
pub fn plan_at(profiles: &[Profile], place: u8) -> Plan
    ensures { result ≡ plan_at profiles.now place }
{
    match profiles.get(usize::from(place)) {
        Some(profile) => Plan {
            profile: place,
            up: profile.up,
            down: profile.down,
        },
        None => Plan {
            profile: place,
            up: None,
            down: None,
        },
    }
}

fn is_called(profile: &Profile, name: &[u8]) -> bool
    ensures { result ≡ is_called name.now profile.now }
{
    profile.name.as_slice() == name
}

// The place of the first profile, if there is one.
fn first_place(profiles: &[Profile]) -> Option<u8>
    ensures { result ≡ first_place profiles.now }
{
    if profiles.is_empty() {
        return None;
    }
    Some(0)
}

// The place of the profile that an Accept names, and of the first where it names none.
fn place_for(profiles: &[Profile], named: Option<&[u8]>) -> Option<u8>
    requires few { length profiles.now ≤ 16 }
    ensures { result ≡ place_for profiles.now (option_map (λ n. n.now) named.entry) }
{
    let Some(name) = named else {
        return first_place(profiles);
    };
    let place = profiles.iter().position(|p| is_called(p, name))?;
    Some(place as u8)
}

/// By what the term is metered that an Accept allows: the plan of the profile that it names (Filter-Id, RFC 2865 section 5.11), and of
/// the first where it names none. None exactly where it names no profile that is there.
pub fn plan_for(profiles: &[Profile], named: Option<&[u8]>) -> Option<Plan>
    requires few { length profiles.now ≤ 16 }
    ensures { result ≡ plan_for profiles.now (option_map (λ n. n.now) named.entry) }
{
    let place = place_for(profiles, named)?;
    Some(plan_at(profiles, place))
}

// The meters of the term of the circuit with this session number, if there is one: they start full at this moment, in milliseconds.
fn circuit_meters(profiles: &[Profile], circuits: &[Static], session: SessionNo, now: u64) -> Meters
    requires apart { AllPairs (λ a b. a.session ≢ b.session) circuits.now }
    ensures { result ≡ circuit_meters profiles.now now (circuit_at circuits.now session.0) }
{
    match circuit_with(circuits, session) {
        Some(circuit) => Meters::start(plan_at(profiles, circuit.profile), now),
        None => Meters::none(),
    }
}

/// The meters of a shard's circuits, by rising session number, at its opening: they start full at this moment, in milliseconds.
pub fn opened_meters(
    alloc: Global,
    number: u16,
    profiles: &[Profile],
    circuits: &[Static],
    now: u64,
) -> Result<Vec<Meters>, AllocError>
    requires number { number < 64 }
    requires sessions { AllPairs (λ a b. a.session ≢ b.session) circuits.now }
    ensures { IfOk result (λ m. m.items ≡ opened_meters number profiles.now circuits.now now) }
{
    let mut meters = Vec::with_capacity(alloc, usize::from(SPAN))?;
    let first = number * SPAN;
    for index in 0..SPAN {
        let session = SessionNo(first + index);
        let Meters { input, output } = circuit_meters(profiles, circuits, session, now);
        meters.push_reserved(Meters { input, output });
    }
    Ok(meters)
}
