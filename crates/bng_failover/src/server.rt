ghost use Rattle.std.specs.Prelude.{◌≡◌, ◌≤◌, IfOk, map, length};
ghost use Rattle.bng_failover.specs.Servers.{new_server};

use bng_base::Peer;
use bng_rad_client::Requests;
use std::alloc::{AllocError, Global};

/// A server, and the requests that are in hand at it by their identifiers.
#[derive(Drop)]
pub struct Server {
    pub peer: Peer,
    pub requests: Requests,
}

/// The servers with no request.
pub(crate) fn opened(alloc: Global, peers: &[Peer]) -> Result<Vec<Server>, AllocError>
    ensures { IfOk result (λ servers. servers.items ≡ map new_server peers.now) }
{
    let mut servers = Vec::with_capacity(alloc, peers.len())?;
    for peer in peers {
        let requests = Requests::open(alloc)?;
        servers.push_reserved(Server {
            peer: *peer,
            requests,
        });
    }
    Ok(servers)
}
