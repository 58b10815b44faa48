use arrayvec::ArrayVec;
use bng_base::{
    AccessPort, AuthKind, CoaPart, Ip4, Lac, Listed, NamedRange, Peer, Profile, Static,
};

/// What the gateway serves: its name, of 1 to 64 printable octets of ASCII without space; the number of its shards, 1 to
/// 64; the services that it offers beside any, at most 8 of 1 to 64 octets each; the ways to authenticate that it asks
/// for, the first one first; the seconds between two Echo-Requests of a link, 0 to 3,600, where 0 asks for none (RFC 1661
/// section 5.8); its ends of the sockets to Control and the core, the core's other end, the access ports, whose numbers
/// count from 1, and the provisioned circuits on them, at most as many as there is room for terms; and of RADIUS the
/// address that it gives itself in its requests (NAS-IP-Address, RFC 2865 section 5.4), its end of the socket for
/// authentication, the server's end, the secret of 1 to 64 octets that the two share (section 3), and how often an
/// Access-Request is sent in all, 1 to 10. Of accounting it is for how many terms there is room that are live or have a
/// record that the server has not yet acknowledged, 64 to 262,144 (RFC 2866 section 4.1), the gateway's end of the
/// socket for accounting, which no other of its sockets has, and the server's end (section 3); the secret is the same.
pub struct Config {
    pub name: ArrayVec<u8, 64>,
    pub shards: u16,
    pub services: ArrayVec<ArrayVec<u8, 64>, 12>,
    pub auth: ArrayVec<AuthKind, 2>,
    pub echo: u16,
    pub control_local: Peer,
    pub core_local: Peer,
    pub core_peer: Peer,
    pub access: Listed<AccessPort>,
    pub statics: Listed<Static>,
    pub nas_ip: Ip4,
    pub auth_local: Peer,
    pub auth_server: Peer,
    pub secret: ArrayVec<u8, 64>,
    pub tries: u8,
    pub terms: u32,
    pub acct_local: Peer,
    pub acct_server: Peer,
    /// The gateway's own IPv4 address on links (IPCP's IP-Address, RFC 1332 section 3.3). No pool has it.
    pub address: Ip4,
    /// The servers of names that it tells subscribers of, the primary one first (RFC 1877 sections 1.1 and 1.3).
    pub dns: ArrayVec<Ip4, 2>,
    /// The pools of addresses for subscribers, 1 to 16. Their names are different, 1 to 32 of `a` to `z`, `0` to `9`, `-`
    /// and `_` each; no address is in two of them; together they have at most 262,144; each circuit's address is in one.
    pub pools: Listed<NamedRange>,
    /// The profiles that subscribers are metered by, 1 to 16. Their names are different, 1 to 32 of `a` to `z`, `0` to `9`, `-`
    /// and `_` each, and each circuit's profile is a place, from 0, of this list.
    pub profiles: Listed<Profile>,
    /// How many workers handle what comes, 1 to 16.
    pub workers: u16,
    /// The gateway's end of L2TP (RFC 2661 section 8.1), which is there where there are access concentrators.
    pub tunnel_local: Option<Peer>,
    /// The L2TP access concentrators, at most 16, with different addresses.
    pub lacs: Listed<Lac>,
    /// Who may ask for changes of sessions (RFC 5176), 1 to 16 addresses, and what they share with the gateway.
    pub coa: Option<CoaPart>,
}

impl Drop for Config {
    fn drop(self) {
        let Config {
            name: _,
            shards: _,
            services: _,
            auth: _,
            echo: _,
            control_local: _,
            core_local: _,
            core_peer: _,
            access: _,
            statics: _,
            nas_ip: _,
            auth_local: _,
            auth_server: _,
            secret: _,
            tries: _,
            terms: _,
            acct_local: _,
            acct_server: _,
            address: _,
            dns: _,
            pools: _,
            profiles: _,
            workers: _,
            tunnel_local: _,
            lacs: _,
            coa: _,
        } = self;
    }
}
