//! The table of the gateway itself.
ghost use Rattle.toml.specs.View.{view};
ghost use Rattle.bng_schema.specs.Checks.{IsSound};
ghost use Rattle.bng_config.specs.Gateway.{IsGateway};

use crate::values::{
    address_of, kinds_or_both, name_of, number_or, servers_or_none, services_or_none,
};
use arrayvec::ArrayVec;
use bng_base::{AuthKind, Ip4};
use bng_schema::{Field, Key};
use toml::Value;

/// What stands at the keys of the gateway, and the defaults of those at which nothing stands.
#[derive(Drop)]
pub(crate) struct Gateway {
    pub name: ArrayVec<u8, 64>,
    pub address: Ip4,
    pub nas_ip: Ip4,
    pub shards: u16,
    pub workers: u16,
    pub terms: u32,
    pub services: ArrayVec<ArrayVec<u8, 64>, 12>,
    pub dns: ArrayVec<Ip4, 2>,
    pub auth: ArrayVec<AuthKind, 2>,
    pub echo: u16,
}

/// The gateway of a document that breaks no rule.
pub(crate) fn gateway_of(document: &Value) -> Gateway
    requires { IsSound (view document.now) }
    ensures { IsGateway (view document.now) result }
{
    let name = name_of(document, Key::Of(Field::GatewayName, 0));
    let address = address_of(document, Key::Of(Field::GatewayAddress, 0));
    let nas_ip = address_of(document, Key::Of(Field::GatewayNasIp, 0));
    let shards = number_or(document, Key::Of(Field::GatewayShards, 0), 1, 64, 4);
    let workers = number_or(document, Key::Of(Field::GatewayWorkers, 0), 1, 16, 2);
    let terms = number_or(document, Key::Of(Field::GatewayTerms, 0), 64, 262_144, 8192);
    let services = services_or_none(document, Key::Of(Field::GatewayServices, 0));
    let dns = servers_or_none(document, Key::Of(Field::GatewayDns, 0));
    let auth = kinds_or_both(document, Key::Of(Field::GatewayAuth, 0));
    let echo = number_or(document, Key::Of(Field::GatewayEcho, 0), 0, 3600, 30);
    Gateway {
        name,
        address,
        nas_ip,
        shards: shards as u16,
        workers: workers as u16,
        terms: terms as u32,
        services,
        dns,
        auth,
        echo: echo as u16,
    }
}
