//! The provisioned circuits.
ghost use Rattle.std.specs.Prelude.{◌≡◌, ◌≢◌, ◌<◌, ◌≤◌, ◌↔◌, ℕ, length, slice_index_or, IsTrue, IfSome, IfNone, IfOk, IfErr};
ghost use Rattle.toml.specs.View.{view};
ghost use Rattle.bng_base.specs.declared.book.Profile.{Profile as Metered};
ghost use Rattle.bng_schema.specs.Keys.{entries};
ghost use Rattle.bng_schema.specs.Forms.{shards_of};
ghost use Rattle.bng_schema.specs.Checks.{IsSound};
ghost use Rattle.bng_config.specs.Configuration.{AreEntries, AreProfiles, IsCircuit, IsPlaceOf, IsProfilePlace};

use crate::fault::ConfigError;
use crate::values::{address_of, mac_of, port_of, session_of, user_of};
use bng_base::{Profile, Static};
use bng_schema::{Field, Key, Table, entries_of, known_text};
use std::alloc::Global;
use toml::Value;

/// The circuits of a document that breaks no rule. `shards` is the number of its shards, and `profiles` are its profiles.
pub(crate) fn circuits_of(
    alloc: Global,
    document: &Value,
    shards: u16,
    profiles: &[Profile],
) -> Result<Vec<Static>, ConfigError>
    requires sound { IsSound (view document.now) }
    requires shards { shards ≡ shards_of (view document.now) }
    requires few { shards ≤ 64 }
    requires profiles { AreProfiles (view document.now) profiles.now }
    ensures found { IfOk result (λ circuits. AreEntries (view document.now) Table.Static (IsCircuit (view document.now) profiles.now) circuits.items) }
    ensures memory { IfErr result (λ e. e ≡ ConfigError.OutOfMemory) }
{
    let count = entries_of(document, Table::Static);
    let mut circuits = Vec::new(alloc);
    for place in 0..count {
        let circuit = circuit_at(document, place, shards, profiles);
        circuits.push(circuit)?;
    }
    Ok(circuits)
}

fn circuit_at(document: &Value, place: usize, shards: u16, profiles: &[Profile]) -> Static
    requires sound { IsSound (view document.now) }
    requires there { place < entries (view document.now) Table.Static }
    requires shards { shards ≡ shards_of (view document.now) }
    requires few { shards ≤ 64 }
    requires profiles { AreProfiles (view document.now) profiles.now }
    ensures { IsCircuit (view document.now) profiles.now place result }
{
    let port = port_of(document, Key::Of(Field::StaticPort, place));
    let mac = mac_of(document, Key::Of(Field::StaticMac, place));
    let session = session_of(document, Key::Of(Field::StaticSession, place), shards);
    let address = address_of(document, Key::Of(Field::StaticAddress, place));
    let user = user_of(document, Key::Of(Field::StaticUser, place));
    let profile = profile_of(document, place, profiles);
    Static {
        port,
        mac,
        session,
        address,
        user,
        profile,
    }
}

// The place of the profile that the circuit names, or that of the first one.
fn profile_of(document: &Value, place: usize, profiles: &[Profile]) -> u8
    requires sound { IsSound (view document.now) }
    requires there { place < entries (view document.now) Table.Static }
    requires profiles { AreProfiles (view document.now) profiles.now }
    ensures { IsProfilePlace (view document.now) profiles.now place result }
{
    match known_text(document, Key::Of(Field::StaticProfile, place)) {
        Some(name) => match place_of(profiles, name.as_bytes()) {
            Some(found) => found as u8,
            None => unreachable!(),
        },
        None => 0,
    }
}

// The place of the first profile of this name.
fn place_of(profiles: &[Profile], name: &[u8]) -> Option<usize>
    ensures found { IfSome result (λ k. IsPlaceOf profiles.now name.now k) }
    ensures none { IfNone result ((i : ℕ) (d : Metered) → i < length profiles.now → (slice_index_or profiles.now i d).name.items ≢ name.now) }
{
    for (place, profile) in profiles.iter().enumerate() {
        if is_named(profile, name) {
            return Some(place);
        }
    }
    None
}

fn is_named(profile: &Profile, name: &[u8]) -> bool
    ensures { IsTrue result ↔ (profile.now.name.items ≡ name.now) }
{
    profile.name.as_slice() == name
}
