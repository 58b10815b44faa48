ghost use Rattle.std.specs.Prelude.{◌≡◌, ◌<◌, ◌≤◌, ◌+◌, ◌++◌, [], ◌↔◌, length, All};
ghost use Rattle.bng_ppp_wire.specs.View.{option_of, options_of};
ghost use Rattle.bng_ipcp.specs.Judgement.{IsJudgement, class_of, added, address_row as row_of_address, server_rows, rows_of};

use crate::option::{IP_ADDRESS, PRIMARY_DNS, SECONDARY_DNS};
use arrayvec::ArrayVec;
use bng_base::Ip4;
use bng_ppp_wire::{Class, Good, Judged, Opt, OptionRow, Width};

/// What a Configure-Request is judged by.
#[derive(Clone, Copy)]
pub struct IpcpRules {
    /// The address that the peer is to have.
    pub lease: Ip4,
    /// The primary and the secondary DNS server, where one is configured.
    pub dns: [Option<Ip4>; 2],
    /// So many Configure-Naks were sent without a Configure-Ack that what would be naked is rejected.
    pub no_more_naks: bool,
}

/// Judges the options of a Configure-Request, of which there are at most 64 (RFC 1661 sections 5.2 to 5.4).
///
/// A Configure-Reject lists the options whose type is not negotiated, whose length is wrong, or for which no server is
/// configured. Where there is none, a Configure-Nak lists the right address for each option that has another, and then
/// the lease where the request has no IP-Address. Where there is none of these either, the request is acknowledged.
pub fn judge<'a>(request: &[Opt<'a>], rules: &IpcpRules) -> Judged<'a>
    requires { length request.now ≤ 64 }
    ensures answer { IsJudgement rules.now (options_of request.now) result }
    ensures ack { (result ≡ Judged.Ack) ↔ (All (λ o. class_of rules.now (option_of o) ≡ Class.Ack) request.now × (added rules.now (options_of request.now) ≡ [])) }
{
    let rows = rows(rules);
    bng_ppp_wire::judge(rows.as_slice(), rules.no_more_naks, request)
}

// The options that are negotiated.
fn rows(rules: &IpcpRules) -> ArrayVec<OptionRow, 3>
    ensures { result.items ≡ rows_of rules.now }
{
    let mut rows = ArrayVec::new();
    rows.push(address_row(rules.lease));
    add_server(PRIMARY_DNS, rules.dns[0], &mut rows);
    add_server(SECONDARY_DNS, rules.dns[1], &mut rows);
    rows
}

// IP-Address: the lease alone.
fn address_row(lease: Ip4) -> OptionRow
    ensures { result ≡ row_of_address lease }
{
    OptionRow {
        kind: IP_ADDRESS,
        width: Width::Four,
        good: Good::Only(lease.0),
        suggestion: lease.0,
        must_be_named: true,
    }
}

// The address of a DNS server, where one is configured.
fn add_server(kind: u8, server: Option<Ip4>, rows: &mut ArrayVec<OptionRow, 3>)
    requires { length rows.old.items < 3 }
    ensures are { rows.new.items ≡ rows.old.items ++ server_rows kind server }
    ensures few { length rows.new.items ≤ length rows.old.items + 1 }
{
    if let Some(server) = server {
        rows.push(OptionRow {
            kind,
            width: Width::Four,
            good: Good::Only(server.0),
            suggestion: server.0,
            must_be_named: false,
        });
    }
}
