//! The Interims of a settlement (RFC 2869 section 5.16).
ghost use Rattle.std.specs.Prelude.{◌≡◌, ◌≤◌, ◌<◌, ◌^◌, true, List};
ghost use Rattle.std.specs.List.{All};
ghost use Rattle.bng_acct.specs.Request.{AreClasses};
ghost use Rattle.bng_acct.specs.Roster.{of_term};
ghost use Rattle.bng_acct.specs.Spool.{is_live};
ghost use Rattle.bng_engine.specs.Lists.{AnyOf, Zip3};
ghost use Rattle.bng_engine.specs.Terms.{keys};
ghost use Rattle.bng_radius_wire.specs.Attributes.{Field};
ghost use Rattle.bng_steps.specs.Interims.{row_told};
ghost use Rattle.bng_steps.specs.Lasting.{AreTenures};
ghost use Rattle.bng_steps.specs.Protocol.{key_of, terms_of, SaysOf};
ghost use Rattle.bng_steps.specs.Tenures.{Tenure};
ghost use Rattle.bng_desk.specs.Accounting.{FormedRecord};
ghost use Rattle.bng_desk.specs.Interims.{owed_by, AreAwaited, AreWaiting, AwaitsAt, WaitsAt, FormsInterim, FormsInterims, TakesInterims};
ghost use Rattle.bng_desk.specs.Model.{keys_in};
ghost use Rattle.bng_desk.specs.Round.{terms_in};
ghost use Rattle.bng_desk.specs.Taking.{states_of, KeepsHeld, ReportsShard};

use bng_acct::{Moment, TermFacts};
use bng_billing::Billing;
use bng_shard::Shard;
use bng_steps::{ReportedTerm, Reports};

// Forms the Interim of a live term that is due, at this moment and this second on the wall, unless its last one is open still. Its Classes
// are whole, it began no later than now, and it is live in accounting. It is one of these terms.
fn form(billing: &mut Billing, due: ReportedTerm, moment: u64, wall: u64)
    requires classes { (classes : List Field) × AreClasses classes due.term.class.items }
    requires began { due.term.began ≤ moment }
    requires live { is_live (of_term due.term.term billing.old.spool.held) ≡ true }
    ensures forms { (terms : List Tenure) → AnyOf (SaysOf due.term.user.items due.term.class.items due.term.began (key_of due.term)) terms
        → (formed : List FormedRecord) × FormsInterim terms moment wall billing.old (row_told due) formed billing.new }
    ensures held { KeepsHeld billing.old billing.new }
{
    let ReportedTerm { term, carried } = due;
    if !billing.interim_free(&term.term) {
        return;
    }
    let facts = TermFacts {
        term: term.term,
        circuit: term.circuit,
        address: term.address,
        user: term.user,
        class: term.class,
        began: term.began,
        carried,
    };
    let at = Moment {
        now: moment,
        wall,
        cause: 0,
    };
    let _number = billing.interim(&facts, at);
}

// Takes the Interims of a shard's live terms that are due at this moment, in milliseconds, and forms a record of each whose last one is
// not open, at this second on the wall. Each term is live in accounting.
fn report(shard: &Shard, reports: &mut Reports, billing: &mut Billing, moment: u64, wall: u64)
    requires moment { moment < 2 ^ 60 }
    requires terms { AreTenures moment shard.now.state.slots }
    requires live { All (λ k. is_live (of_term k.term billing.old.spool.held) ≡ true) (keys (terms_of shard.now.state)) }
    requires awaited { AwaitsAt moment shard.now reports.old }
    ensures reports { ReportsShard moment wall shard.now reports.old reports.new billing.old billing.new }
    ensures awaited { WaitsAt moment shard.now reports.new }
    ensures held { KeepsHeld billing.old billing.new }
{
    if !shard.may_report(reports, moment) {
        return;
    }
    while let Some(due) = shard.interim(reports, moment) {
        form(billing, due, moment, wall);
    }
}

/// Takes the Interims of live terms that are due at this moment, in milliseconds, of the shards in their order, and forms a record of
/// each whose last one is not open, at this second on the wall. Which were taken of a shard stands at its place of `reports`. Each term is
/// live in accounting.
pub(crate) fn report_each(
    shards: &[Shard],
    reports: &mut [Reports],
    billing: &mut Billing,
    moment: u64,
    wall: u64,
)
    requires moment { moment < 2 ^ 60 }
    requires terms { All (λ v. AreTenures moment v.state.slots) shards.now }
    requires live { All (λ k. is_live (of_term k.term billing.old.spool.held) ≡ true) (keys_in shards.now) }
    requires awaited { AreAwaited moment shards.now reports.old }
    ensures forms { (formed : List FormedRecord) × FormsInterims (terms_in (states_of shards.now)) moment wall billing.old (owed_by moment shards.now reports.old) formed billing.new }
    ensures taken { Zip3 (TakesInterims moment) shards.now reports.old reports.new }
    ensures awaited { AreWaiting moment shards.now reports.new }
    ensures held { KeepsHeld billing.old billing.new }
{
    for (place, shard) in shards.iter().enumerate() {
        report(shard, &mut reports[place], billing, moment, wall);
    }
}
