use bng_base::{AccessPort, Ip4, Lac, Listed, NamedRange, Peer, Profile};
use bng_discovery::PortRules;
use bng_ppp::LinkRules;

/// By what all shards of a gateway work. A shard has them from its opening on.
pub struct Rules {
    /// How many shards there are, 1 to 64.
    pub shards: u16,
    /// The core's end.
    pub core_peer: Peer,
    /// The access ports, whose numbers count from 1.
    pub access: Listed<AccessPort>,
    /// What each access port offers, by the same numbers.
    pub offers: Listed<PortRules>,
    /// The pools of addresses, at most 16, by their places in the table of addresses. Where there is none, a peer that is accepted gets
    /// no address.
    pub pools: Listed<NamedRange>,
    /// The profiles by which subscribers' packets are counted, 1 to 16 with different names. A term names its own by its place, from 0.
    pub profiles: Listed<Profile>,
    /// What each session's link is run by. Its name is the gateway's Host Name on tunnels.
    pub link: LinkRules,
    /// The L2TP access concentrators from which tunnels are taken, and the secret that is shared with each.
    pub lacs: Listed<Lac>,
    /// Whether the gateway has an end for L2TP tunnels. No step of a shard looks at it.
    pub serves_tunnels: bool,
    /// The NAS-IP-Address (RFC 2865 section 5.4) by which requests for changes name the gateway.
    pub nas_ip: Ip4,
    /// The second at which the run opened, by which records name terms.
    pub wall: u64,
    /// Whether the gateway has an end for requests for changes. No step of a shard looks at it.
    pub serves_changes: bool,
}

impl Drop for Rules {
    fn drop(self) {
        let Rules {
            shards: _,
            core_peer: _,
            access: _,
            offers: _,
            pools: _,
            profiles: _,
            link: _,
            lacs: _,
            serves_tunnels: _,
            nas_ip: _,
            wall: _,
            serves_changes: _,
        } = self;
    }
}
