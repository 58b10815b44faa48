//! The configuration that a text stands for.
ghost use Rattle.std.specs.Prelude.{◌≡◌, ◌↔◌, ◌<◌, length, IfOk, IfErr, IsErrAnd};
ghost use Rattle.toml.specs.View.{view};
ghost use Rattle.bng_schema.specs.Checks.{mention_of, IsFirstUnknown, IsKnown, IsSound};
ghost use Rattle.bng_config.specs.declared.config.Config.{Config as Settings};
ghost use Rattle.bng_config.specs.declared.fault.Fault.{Fault as Wrong};
ghost use Rattle.bng_config.specs.Configuration.{longest_text, Configures, IsRead, HasFault, IsFaultOrMemory, IsToldOf};
ghost use Rattle.bng_config.specs.Rules.{KeepsRules};

use crate::access::ports_of;
use crate::changes::coa_of;
use crate::circuits::circuits_of;
use crate::config::Config;
use crate::ends::ends_of;
use crate::fault::{ConfigError, Fault};
use crate::gateway::gateway_of;
use crate::lacs::{lacs_of, tunnel_of};
use crate::pools::pools_of;
use crate::profiles::profiles_of;
use crate::radius::radius_of;
use crate::texts::written;
use bng_base::Listed;
use bng_schema::{Unknown, first_broken, first_unknown};
use std::alloc::Global;
use toml::Value;

/// The longest text that is read, in octets.
const LONGEST: usize = 1_048_576;

/// The configuration that the text stands for. `Refused` comes exactly where the text has a fault, with the first one: an
/// unknown name, or else the lowest rule that is broken, at the first of its keys. `OutOfMemory` may come where the text is
/// not too long.
pub fn read(alloc: Global, text: &[u8]) -> Result<Config, ConfigError>
    // What is answered is what the text says, and a desk can be opened over it.
    ensures found { IfOk result (λ c. IsRead text.now c) }
    ensures keeps { IfOk result (λ c. KeepsRules c) }
    ensures refused { IfErr result (λ e. (fault : Wrong) → e ≡ ConfigError.Refused fault → HasFault text.now fault) }

    // What the text says is one configuration or one fault, and is answered, unless memory runs out.
    ensures same { (c : Settings) → IsRead text.now c → IfOk result (λ answer. answer ≡ c) }
    ensures read { (c : Settings) → IsRead text.now c → IfErr result (λ e. e ≡ ConfigError.OutOfMemory) }
    ensures faulty { (fault : Wrong) → HasFault text.now fault → IsErrAnd result (IsFaultOrMemory fault) }
    ensures too_long { (result ≡ Err (ConfigError.Refused Fault.TooLong)) ↔ (longest_text < length text.now) }
{
    if text.len() > LONGEST {
        return Err(ConfigError::Refused(Fault::TooLong));
    }
    let table = match toml::table_from_slice(alloc, text) {
        Ok(table) => table,
        Err(error) => {
            return Err(if error.is_memory() {
                ConfigError::OutOfMemory
            } else {
                ConfigError::Refused(Fault::NotToml)
            });
        }
    };
    judged(alloc, &Value::Table(table))
}

// The configuration of a document, or its first fault.
fn judged(alloc: Global, document: &Value) -> Result<Config, ConfigError>
    ensures found { IfOk result (λ c. Configures (view document.now) c) }
    ensures refused { IfErr result (IsToldOf (view document.now)) }
{
    if let Some(unknown) = first_unknown(document) {
        return Err(unknown_name(alloc, document, unknown));
    }
    match first_broken(document) {
        Some((rule, key)) => Err(ConfigError::Refused(Fault::Broken(rule, key))),
        None => config_of(alloc, document),
    }
}

// The fault of an unknown name.
fn unknown_name(alloc: Global, document: &Value, unknown: Unknown) -> ConfigError
    requires { IsFirstUnknown (view document.now) (mention_of unknown) }
    ensures { IsToldOf (view document.now) result }
{
    match written(alloc, unknown) {
        Ok(name) => ConfigError::Refused(Fault::Unknown(name)),
        Err(_) => ConfigError::OutOfMemory,
    }
}

// The configuration of a document that has no fault.
fn config_of(alloc: Global, document: &Value) -> Result<Config, ConfigError>
    requires known { IsKnown (view document.now) }
    requires sound { IsSound (view document.now) }
    ensures found { IfOk result (λ c. Configures (view document.now) c) }
    ensures memory { IfErr result (λ e. e ≡ ConfigError.OutOfMemory) }
{
    let gateway = gateway_of(document);
    let ends = ends_of(document);
    let radius = radius_of(document);
    let tunnel_local = tunnel_of(document);
    let coa = coa_of(document);
    let access = ports_of(alloc, document)?;
    let lacs = lacs_of(alloc, document)?;
    let pools = pools_of(alloc, document)?;
    let profiles = profiles_of(alloc, document)?;
    let statics = circuits_of(alloc, document, gateway.shards, profiles.as_slice())?;
    Ok(Config {
        name: gateway.name,
        shards: gateway.shards,
        services: gateway.services,
        auth: gateway.auth,
        echo: gateway.echo,
        control_local: ends.control_local,
        core_local: ends.core_local,
        core_peer: ends.core_peer,
        access: Listed::of(access),
        statics: Listed::of(statics),
        nas_ip: gateway.nas_ip,
        auth_local: radius.auth_local,
        auth_server: radius.auth_server,
        secret: radius.secret,
        tries: radius.tries,
        terms: gateway.terms,
        acct_local: radius.acct_local,
        acct_server: radius.acct_server,
        address: gateway.address,
        dns: gateway.dns,
        pools: Listed::of(pools),
        profiles: Listed::of(profiles),
        workers: gateway.workers,
        tunnel_local,
        lacs: Listed::of(lacs),
        coa,
    })
}
