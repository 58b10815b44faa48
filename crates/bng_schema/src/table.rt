//! The tables and their keys: what each is called, whether it must be there, and what may stand there.
ghost use Rattle.std.specs.Prelude.{◌≡◌};
ghost use Rattle.bng_schema.specs.Keys.{row, table_row as line_of_table, field_row as line_of_field, needed_row, other_row, is_list, fields};
ghost use Rattle.bng_schema.specs.Table.{row_view};

use crate::keys::{Field, Form, Key, Table};

/// The highest rate of a meter, in octets a second.
const RATE_MOST: u64 = 1_000_000_000_000;

/// What there is to know of a key: the table in which it stands, its name there, whether it must be there, and what may
/// stand there. A table itself stands in none: its row names it twice.
#[derive(Clone, Copy)]
pub struct KeyEntry {
    pub table: Table,
    pub name: &'static str,
    pub needed: bool,
    pub form: Form,
}

/// The tables, in the order in which they are looked at.
pub const TABLES: &[Table] = &[
    Table::Gateway,
    Table::Core,
    Table::Control,
    Table::Access,
    Table::Radius,
    Table::Tunnel,
    Table::Lac,
    Table::Coa,
    Table::Pool,
    Table::Profile,
    Table::Static,
];

const GATEWAY: &[Field] = &[
    Field::GatewayName,
    Field::GatewayAddress,
    Field::GatewayNasIp,
    Field::GatewayShards,
    Field::GatewayWorkers,
    Field::GatewayTerms,
    Field::GatewayServices,
    Field::GatewayDns,
    Field::GatewayAuth,
    Field::GatewayEcho,
];

const CORE: &[Field] = &[Field::CoreLocal, Field::CorePeer];

const CONTROL: &[Field] = &[Field::ControlLocal];

const ACCESS: &[Field] = &[Field::AccessLocal, Field::AccessPeer, Field::AccessMac];

const RADIUS: &[Field] = &[
    Field::RadiusAuthLocal,
    Field::RadiusAuthServer,
    Field::RadiusAcctLocal,
    Field::RadiusAcctServer,
    Field::RadiusSecret,
    Field::RadiusTries,
];

const TUNNEL: &[Field] = &[Field::TunnelLocal];

const LAC: &[Field] = &[Field::LacIp, Field::LacSecret];

const COA: &[Field] = &[Field::CoaLocal, Field::CoaPeers, Field::CoaSecret];

const POOL: &[Field] = &[Field::PoolName, Field::PoolFirst, Field::PoolLast];

const PROFILE: &[Field] = &[
    Field::ProfileName,
    Field::ProfileUpCir,
    Field::ProfileUpCbs,
    Field::ProfileUpEbs,
    Field::ProfileDownCir,
    Field::ProfileDownCbs,
    Field::ProfileDownEbs,
];

const STATIC: &[Field] = &[
    Field::StaticPort,
    Field::StaticMac,
    Field::StaticSession,
    Field::StaticAddress,
    Field::StaticUser,
    Field::StaticProfile,
];

/// The keys of a table, in the order in which they are looked at.
pub fn fields_of(table: Table) -> &'static [Field]
    ensures { result.now ≡ fields table }
{
    match table {
        Table::Gateway => GATEWAY,
        Table::Core => CORE,
        Table::Control => CONTROL,
        Table::Access => ACCESS,
        Table::Radius => RADIUS,
        Table::Tunnel => TUNNEL,
        Table::Lac => LAC,
        Table::Coa => COA,
        Table::Pool => POOL,
        Table::Profile => PROFILE,
        Table::Static => STATIC,
    }
}

/// The table is a list of entries.
pub fn is_listed(table: Table) -> bool
    ensures { result ≡ is_list table }
{
    match table {
        Table::Gateway => false,
        Table::Core => false,
        Table::Control => false,
        Table::Access => true,
        Table::Radius => false,
        Table::Tunnel => false,
        Table::Lac => true,
        Table::Coa => false,
        Table::Pool => true,
        Table::Profile => true,
        Table::Static => true,
    }
}

/// What there is to know of a key.
pub fn row_of(key: Key) -> KeyEntry
    ensures table { result.table ≡ (row key).table }
    ensures name { result.name.now ≡ (row key).name }
    ensures needed { result.needed ≡ (row key).needed }
    ensures form { result.form ≡ (row key).form }
{
    match key {
        Key::Whole(table) => table_row(table),
        Key::Of(field, _) => field_row(field),
    }
}

// A key that must be there.
fn needed(table: Table, name: &'static str, form: Form) -> KeyEntry
    ensures { row_view result ≡ needed_row table name.now form }
{
    KeyEntry {
        table,
        name,
        needed: true,
        form,
    }
}

// A key that may be absent.
fn other(table: Table, name: &'static str, form: Form) -> KeyEntry
    ensures { row_view result ≡ other_row table name.now form }
{
    KeyEntry {
        table,
        name,
        needed: false,
        form,
    }
}

fn table_row(table: Table) -> KeyEntry
    ensures { row_view result ≡ line_of_table table }
{
    match table {
        Table::Gateway => needed(Table::Gateway, "gateway", Form::OneTable),
        Table::Core => needed(Table::Core, "core", Form::OneTable),
        Table::Control => needed(Table::Control, "control", Form::OneTable),
        Table::Access => needed(Table::Access, "access", Form::TableList(1, 16)),
        Table::Radius => needed(Table::Radius, "radius", Form::OneTable),
        Table::Tunnel => other(Table::Tunnel, "tunnel", Form::OneTable),
        Table::Lac => other(Table::Lac, "lac", Form::TableList(0, 16)),
        Table::Coa => other(Table::Coa, "coa", Form::OneTable),
        Table::Pool => needed(Table::Pool, "pool", Form::TableList(1, 16)),
        Table::Profile => other(Table::Profile, "profile", Form::TableList(0, 16)),
        Table::Static => other(Table::Static, "static", Form::TableList(0, 1024)),
    }
}

fn field_row(field: Field) -> KeyEntry
    ensures { row_view result ≡ line_of_field field }
{
    match field {
        Field::GatewayName => needed(Table::Gateway, "name", Form::PrintableText),
        Field::GatewayAddress => needed(Table::Gateway, "address", Form::AddressText),
        Field::GatewayNasIp => needed(Table::Gateway, "nas_ip", Form::AddressText),
        Field::GatewayShards => other(Table::Gateway, "shards", Form::Number(1, 64)),
        Field::GatewayWorkers => other(Table::Gateway, "workers", Form::Number(1, 16)),
        Field::GatewayTerms => other(Table::Gateway, "terms", Form::Number(64, 262_144)),
        Field::GatewayServices => other(Table::Gateway, "services", Form::ServiceList),
        Field::GatewayDns => other(Table::Gateway, "dns", Form::AddressList(0, 2)),
        Field::GatewayAuth => other(Table::Gateway, "auth", Form::KindList),
        Field::GatewayEcho => other(Table::Gateway, "echo", Form::Number(0, 3600)),
        Field::CoreLocal => needed(Table::Core, "local", Form::PeerText),
        Field::CorePeer => needed(Table::Core, "peer", Form::PeerText),
        Field::ControlLocal => needed(Table::Control, "local", Form::PeerText),
        Field::AccessLocal => needed(Table::Access, "local", Form::PeerText),
        Field::AccessPeer => needed(Table::Access, "peer", Form::PeerText),
        Field::AccessMac => needed(Table::Access, "mac", Form::MacText),
        Field::RadiusAuthLocal => needed(Table::Radius, "auth_local", Form::PeerText),
        Field::RadiusAuthServer => needed(Table::Radius, "auth_server", Form::PeerText),
        Field::RadiusAcctLocal => needed(Table::Radius, "acct_local", Form::PeerText),
        Field::RadiusAcctServer => needed(Table::Radius, "acct_server", Form::PeerText),
        Field::RadiusSecret => needed(Table::Radius, "secret", Form::OctetText(64)),
        Field::RadiusTries => other(Table::Radius, "tries", Form::Number(1, 10)),
        Field::TunnelLocal => needed(Table::Tunnel, "local", Form::PeerText),
        Field::LacIp => needed(Table::Lac, "ip", Form::AddressText),
        Field::LacSecret => other(Table::Lac, "secret", Form::OctetText(64)),
        Field::CoaLocal => needed(Table::Coa, "local", Form::PeerText),
        Field::CoaPeers => needed(Table::Coa, "peers", Form::AddressList(1, 16)),
        Field::CoaSecret => other(Table::Coa, "secret", Form::OctetText(64)),
        Field::PoolName => needed(Table::Pool, "name", Form::LabelText),
        Field::PoolFirst => needed(Table::Pool, "first", Form::AddressText),
        Field::PoolLast => needed(Table::Pool, "last", Form::AddressText),
        Field::ProfileName => needed(Table::Profile, "name", Form::LabelText),
        Field::ProfileUpCir => other(Table::Profile, "up_cir", Form::Number(1, RATE_MOST)),
        Field::ProfileUpCbs => other(Table::Profile, "up_cbs", Form::Number(0, 4_294_967_295)),
        Field::ProfileUpEbs => other(Table::Profile, "up_ebs", Form::Number(0, 4_294_967_295)),
        Field::ProfileDownCir => other(Table::Profile, "down_cir", Form::Number(1, RATE_MOST)),
        Field::ProfileDownCbs => other(Table::Profile, "down_cbs", Form::Number(0, 4_294_967_295)),
        Field::ProfileDownEbs => other(Table::Profile, "down_ebs", Form::Number(0, 4_294_967_295)),
        Field::StaticPort => needed(Table::Static, "port", Form::PortNumber),
        Field::StaticMac => needed(Table::Static, "mac", Form::MacText),
        Field::StaticSession => needed(Table::Static, "session", Form::SessionNumber),
        Field::StaticAddress => needed(Table::Static, "address", Form::AddressText),
        Field::StaticUser => needed(Table::Static, "user", Form::OctetText(128)),
        Field::StaticProfile => other(Table::Static, "profile", Form::AnyText),
    }
}
