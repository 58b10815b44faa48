//! The profiles that subscribers are metered by.
ghost use Rattle.std.specs.Prelude.{◌≡◌, ◌<◌, ◌∷◌, [], codes, IfOk, IfErr};
ghost use Rattle.toml.specs.View.{view};
ghost use Rattle.bng_schema.specs.Keys.{entries};
ghost use Rattle.bng_schema.specs.Forms.{StandsAt, IsNumber};
ghost use Rattle.bng_schema.specs.Rates.{IsThere};
ghost use Rattle.bng_schema.specs.Checks.{IsSound};
ghost use Rattle.bng_config.specs.Configuration.{AreEntries, AreProfiles, IsProfile, IsRate, default_profile};
ghost use Rattle.bng_config.specs.Sound.{IsDirection, IsBurst};

use crate::fault::ConfigError;
use crate::values::{label_of, number_or_none};
use arrayvec::ArrayVec;
use bng_base::{Profile, Rate};
use bng_schema::{Field, Key, Table, entries_of};
use std::alloc::Global;
use toml::Value;

/// The most octets a second that a meter lets pass.
const MOST_RATE: u64 = 1_000_000_000_000;
/// The most octets of a burst.
const MOST_BURST: u64 = 4_294_967_295;

/// The profiles of a document that breaks no rule: one that meters nothing where it has no list, or an empty one.
pub(crate) fn profiles_of(alloc: Global, document: &Value) -> Result<Vec<Profile>, ConfigError>
    requires { IsSound (view document.now) }
    ensures found { IfOk result (λ profiles. AreProfiles (view document.now) profiles.items) }
    ensures memory { IfErr result (λ e. e ≡ ConfigError.OutOfMemory) }
{
    if entries_of(document, Table::Profile) == 0 {
        only_default(alloc)
    } else {
        listed(alloc, document)
    }
}

fn only_default(alloc: Global) -> Result<Vec<Profile>, ConfigError>
    ensures found { IfOk result (λ profiles. profiles.items ≡ default_profile ∷ []) }
    ensures memory { IfErr result (λ e. e ≡ ConfigError.OutOfMemory) }
{
    let mut profiles = Vec::new(alloc);
    profiles.push(unmetered())?;
    Ok(profiles)
}

// The profile that there is where none is configured.
fn unmetered() -> Profile
    ensures { result ≡ default_profile }
{
    Profile {
        name: default_name(),
        up: None,
        down: None,
    }
}

fn default_name() -> ArrayVec<u8, 32>
    ensures { result.items ≡ codes "default" }
{
    let mut name = ArrayVec::new();
    let Ok(()) = name.try_extend_from_slice(b"default") else {
        unreachable!()
    };
    name
}

fn listed(alloc: Global, document: &Value) -> Result<Vec<Profile>, ConfigError>
    requires { IsSound (view document.now) }
    ensures found { IfOk result (λ profiles. AreEntries (view document.now) Table.Profile (IsProfile (view document.now)) profiles.items) }
    ensures memory { IfErr result (λ e. e ≡ ConfigError.OutOfMemory) }
{
    let count = entries_of(document, Table::Profile);
    let mut profiles = Vec::new(alloc);
    for place in 0..count {
        let profile = profile_at(document, place);
        profiles.push(profile)?;
    }
    Ok(profiles)
}

fn profile_at(document: &Value, place: usize) -> Profile
    requires sound { IsSound (view document.now) }
    requires there { place < entries (view document.now) Table.Profile }
    ensures { IsProfile (view document.now) place result }
{
    use Field::{
        ProfileDownCbs, ProfileDownCir, ProfileDownEbs, ProfileUpCbs, ProfileUpCir, ProfileUpEbs,
    };
    let name = label_of(document, Key::Of(Field::ProfileName, place));
    let up = rate_at(document, place, ProfileUpCir, ProfileUpCbs, ProfileUpEbs);
    let down = rate_at(
        document,
        place,
        ProfileDownCir,
        ProfileDownCbs,
        ProfileDownEbs,
    );
    Profile { name, up, down }
}

// The numbers of a direction, which are all there or none.
fn rate_at(document: &Value, place: usize, cir: Field, cbs: Field, ebs: Field) -> Option<Rate>
    requires { IsDirection (view document.now) place cir cbs ebs }
    ensures { IsRate (view document.now) place cir cbs ebs result }
{
    match number_or_none(document, Key::Of(cir, place), 1, MOST_RATE) {
        Some(rate) => {
            let committed = burst_at(document, place, cir, cbs);
            let excess = burst_at(document, place, cir, ebs);
            Some(Rate {
                cir: rate,
                cbs: committed,
                ebs: excess,
            })
        }
        None => None,
    }
}

// A burst of a direction of which the rate is there.
fn burst_at(document: &Value, place: usize, cir: Field, burst: Field) -> u64
    requires burst { IsBurst (view document.now) place cir burst }
    requires there { IsThere (view document.now) cir place }
    ensures { StandsAt (view document.now) (Key.Of burst place) (λ d. IsNumber 0 4294967295 d result) }
{
    match number_or_none(document, Key::Of(burst, place), 0, MOST_BURST) {
        Some(octets) => octets,
        None => unreachable!(),
    }
}
