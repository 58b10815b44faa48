/// A table of the configuration, in the order in which the tables are looked at.
#[derive(Clone, Copy)]
pub enum Table {
    /// `gateway`
    Gateway,
    /// `core`
    Core,
    /// `control`
    Control,
    /// `access`, a list
    Access,
    /// `radius`
    Radius,
    /// `tunnel`, which may be absent
    Tunnel,
    /// `lac`, a list, which may be absent
    Lac,
    /// `coa`, which may be absent
    Coa,
    /// `pool`, a list
    Pool,
    /// `profile`, a list, which may be absent
    Profile,
    /// `static`, a list, which may be absent
    Static,
}

/// A key of a table, in the order in which the keys are looked at.
#[derive(Clone, Copy)]
pub enum Field {
    /// `gateway.name`
    GatewayName,
    /// `gateway.address`
    GatewayAddress,
    /// `gateway.nas_ip`
    GatewayNasIp,
    /// `gateway.shards`
    GatewayShards,
    /// `gateway.workers`
    GatewayWorkers,
    /// `gateway.terms`
    GatewayTerms,
    /// `gateway.services`
    GatewayServices,
    /// `gateway.dns`
    GatewayDns,
    /// `gateway.auth`
    GatewayAuth,
    /// `gateway.echo`
    GatewayEcho,
    /// `core.local`
    CoreLocal,
    /// `core.peer`
    CorePeer,
    /// `control.local`
    ControlLocal,
    /// `local` of an access port
    AccessLocal,
    /// `peer` of an access port
    AccessPeer,
    /// `mac` of an access port
    AccessMac,
    /// `radius.auth_local`
    RadiusAuthLocal,
    /// `radius.auth_server`
    RadiusAuthServer,
    /// `radius.acct_local`
    RadiusAcctLocal,
    /// `radius.acct_server`
    RadiusAcctServer,
    /// `radius.secret`
    RadiusSecret,
    /// `radius.tries`
    RadiusTries,
    /// `tunnel.local`
    TunnelLocal,
    /// `ip` of an L2TP access concentrator
    LacIp,
    /// `secret` of an L2TP access concentrator
    LacSecret,
    /// `coa.local`
    CoaLocal,
    /// `coa.peers`
    CoaPeers,
    /// `coa.secret`
    CoaSecret,
    /// `name` of a pool
    PoolName,
    /// `first` of a pool
    PoolFirst,
    /// `last` of a pool
    PoolLast,
    /// `name` of a profile
    ProfileName,
    /// `up_cir` of a profile
    ProfileUpCir,
    /// `up_cbs` of a profile
    ProfileUpCbs,
    /// `up_ebs` of a profile
    ProfileUpEbs,
    /// `down_cir` of a profile
    ProfileDownCir,
    /// `down_cbs` of a profile
    ProfileDownCbs,
    /// `down_ebs` of a profile
    ProfileDownEbs,
    /// `port` of a circuit
    StaticPort,
    /// `mac` of a circuit
    StaticMac,
    /// `session` of a circuit
    StaticSession,
    /// `address` of a circuit
    StaticAddress,
    /// `user` of a circuit
    StaticUser,
    /// `profile` of a circuit
    StaticProfile,
}

/// A key of the configuration: a table as a whole, or a key of its entry at a place, from 0. A table that is no list has
/// one entry.
#[derive(Clone, Copy)]
pub enum Key {
    Whole(Table),
    Of(Field, usize),
}

/// What may stand at a key. A pair of numbers is the least and the most.
#[derive(Clone, Copy)]
pub enum Form {
    /// A table.
    OneTable,
    /// A list of so many tables.
    TableList(u64, u64),
    /// A text of 1 to 64 printable octets of ASCII without space.
    PrintableText,
    /// A text of 1 to 32 of `a` to `z`, `0` to `9`, `-` and `_`.
    LabelText,
    /// A text of 1 to so many octets.
    OctetText(u64),
    /// A text.
    AnyText,
    /// A text of an IPv4 address.
    AddressText,
    /// A text of an address, a colon and a port.
    PeerText,
    /// A text of an Ethernet address.
    MacText,
    /// A number.
    Number(u64, u64),
    /// The number of an access port, from 1 on.
    PortNumber,
    /// The number of a session of one of the shards.
    SessionNumber,
    /// A list of at most 8 texts of 1 to 64 octets.
    ServiceList,
    /// A list of one or two of the texts `chap` and `pap`, none twice.
    KindList,
    /// A list of so many texts of IPv4 addresses.
    AddressList(u64, u64),
}
