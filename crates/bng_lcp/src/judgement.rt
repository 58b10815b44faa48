ghost use Rattle.std.specs.Prelude.{◌≡◌, ◌≤◌, ◌↔◌, length, All};
ghost use Rattle.bng_ppp_wire.specs.View.{option_of, options_of};
ghost use Rattle.bng_lcp.specs.Judgement.{IsJudgement, class_of, mru_row as row_of_mru, magic_row as row_of_magic, rows_of};

use crate::magic_number::magic_from;
use crate::option::{LEAST_MRU, MAGIC_NUMBER, MAXIMUM_RECEIVE_UNIT};
use bng_ppp_wire::{Class, Good, Judged, Opt, OptionRow, Width};

/// What a Configure-Request is judged by.
#[derive(Clone, Copy)]
pub struct LcpRules {
    /// The largest Maximum-Receive-Unit that is taken, and the one that is suggested, in octets.
    pub limit: u16,
    /// The gateway's own magic number, 0 where it has none.
    pub own_magic: u32,
    /// Four random octets, of which a suggested magic number is made.
    pub fresh_magic: u32,
    /// So many Configure-Naks were sent without a Configure-Ack that what would be naked is rejected.
    pub no_more_naks: bool,
}

/// Judges the options of a Configure-Request, of which there are at most 64 (RFC 1661 sections 5.2 to 5.4).
///
/// A Configure-Reject lists the options whose type is not negotiated or whose length is wrong. Where there is none, a
/// Configure-Nak lists for each option whose value is not taken one that would be. Where there is none of these either,
/// the request is acknowledged.
pub fn judge<'a>(request: &[Opt<'a>], rules: &LcpRules) -> Judged<'a>
    requires { length request.now ≤ 64 }
    ensures answer { IsJudgement rules.now (options_of request.now) result }
    ensures ack { (result ≡ Judged.Ack) ↔ All (λ o. class_of rules.now (option_of o) ≡ Class.Ack) request.now }
{
    let rows = rows(rules);
    bng_ppp_wire::judge(&rows, rules.no_more_naks, request)
}

// The options that are negotiated.
fn rows(rules: &LcpRules) -> [OptionRow; 2]
    ensures { result ≡ rows_of rules.now }
{
    [
        mru_row(rules.limit),
        magic_row(rules.own_magic, rules.fresh_magic),
    ]
}

// Maximum-Receive-Unit: 128 to the limit.
fn mru_row(limit: u16) -> OptionRow
    ensures { result ≡ row_of_mru limit }
{
    OptionRow {
        kind: MAXIMUM_RECEIVE_UNIT,
        width: Width::Two,
        good: Good::Within(u32::from(LEAST_MRU), u32::from(limit)),
        suggestion: u32::from(limit),
        must_be_named: false,
    }
}

// Magic-Number: neither 0 nor the gateway's own.
fn magic_row(own: u32, fresh: u32) -> OptionRow
    ensures { result ≡ row_of_magic own fresh }
{
    OptionRow {
        kind: MAGIC_NUMBER,
        width: Width::Four,
        good: Good::Neither(0, own),
        suggestion: magic_from(fresh),
        must_be_named: false,
    }
}
