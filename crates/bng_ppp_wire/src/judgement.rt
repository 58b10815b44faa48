ghost use Rattle.std.specs.Prelude.{◌≡◌, ◌≤◌, ◌+◌, ◌++◌, [], ◌↔◌, length, count_by, All, map, filter};
ghost use Rattle.bng_ppp_wire.specs.View.{option_of, options_of};
ghost use Rattle.bng_ppp_wire.specs.MadeOption.{made_of, all_made_of};
ghost use Rattle.bng_ppp_wire.specs.OptionTable.{suggestion_of, suggested as suggestion};
ghost use Rattle.bng_ppp_wire.specs.Judgement.{IsJudgement, class_of, not_good as class_not_good, is_missing, added as all_added, corrected as all_corrected, rejected as all_rejected, naked as all_naked};

use crate::listing::names;
use crate::made_option::{MadeOpt, made};
use crate::option_table::{OptionRow, number, row_for};
use crate::view::Opt;
use arrayvec::ArrayVec;

/// The class of an option of a Configure-Request.
#[derive(Clone, Copy)]
pub enum Class {
    Ack,
    Nak,
    Reject,
}

/// How a Configure-Request is answered.
#[derive(Drop)]
pub enum Judged<'a> {
    /// A Configure-Ack with the options of the request.
    Ack,
    /// A Configure-Nak with these options.
    Nak(ArrayVec<MadeOpt, 65>),
    /// A Configure-Reject with these options of the request.
    Reject(ArrayVec<Opt<'a>, 64>),
}

/// Judges the options of a Configure-Request, of which there are at most 64, by the table of those that are negotiated
/// (RFC 1661 sections 5.2 to 5.4). At most one row must be named.
///
/// A Configure-Reject lists the options whose type has no row or whose length is wrong. Where there is none, a
/// Configure-Nak lists for each option whose value is not taken what its row suggests, and then what must be named and
/// is not. Where there is none of these either, the request is acknowledged. `no_more_naks` says that what would be
/// naked is rejected, and that nothing is added.
pub fn judge<'a>(rows: &[OptionRow], no_more_naks: bool, request: &[Opt<'a>]) -> Judged<'a>
    requires few { length request.now ≤ 64 }
    requires one { count_by (λ row. row.must_be_named) rows.now ≤ 1 }
    ensures answer { IsJudgement rows.now no_more_naks (options_of request.now) result }
    ensures ack { (result ≡ Judged.Ack)
        ↔ (All (λ o. class_of rows.now no_more_naks (option_of o) ≡ Class.Ack) request.now
        × (all_added rows.now no_more_naks (options_of request.now) ≡ [])) }
{
    first_class(rows, no_more_naks, request)
}

// The first class that has an option.
fn first_class<'a>(rows: &[OptionRow], no_more_naks: bool, request: &[Opt<'a>]) -> Judged<'a>
    requires few { length request.now ≤ 64 }
    requires one { count_by (λ row. row.must_be_named) rows.now ≤ 1 }
    ensures { IsJudgement rows.now no_more_naks (options_of request.now) result }
{
    let rejected = rejected(rows, no_more_naks, request);
    if !rejected.is_empty() {
        return Judged::Reject(rejected);
    }
    let naked = naked(rows, no_more_naks, request);
    if !naked.is_empty() {
        return Judged::Nak(naked);
    }
    Judged::Ack
}

// The options of a Configure-Reject.
fn rejected<'a>(
    rows: &[OptionRow],
    no_more_naks: bool,
    request: &[Opt<'a>],
) -> ArrayVec<Opt<'a>, 64>
    requires { length request.now ≤ 64 }
    ensures { options_of result.items ≡ all_rejected rows.now no_more_naks (options_of request.now) }
{
    let mut list = ArrayVec::new();
    for option in request {
        if class_in(rows, no_more_naks, option) == Class::Reject {
            list.push(*option);
        }
    }
    list
}

// The options of a Configure-Nak.
fn naked(rows: &[OptionRow], no_more_naks: bool, request: &[Opt<'_>]) -> ArrayVec<MadeOpt, 65>
    requires few { length request.now ≤ 64 }
    requires one { count_by (λ row. row.must_be_named) rows.now ≤ 1 }
    ensures { all_made_of result.items ≡ all_naked rows.now no_more_naks (options_of request.now) }
{
    let mut list = corrected(rows, no_more_naks, request);
    if !no_more_naks {
        add_missing(rows, request, &mut list);
    }
    list
}

// What is suggested in the place of options of the request.
fn corrected(rows: &[OptionRow], no_more_naks: bool, request: &[Opt<'_>]) -> ArrayVec<MadeOpt, 65>
    requires { length request.now ≤ 64 }
    ensures are { all_made_of result.items ≡ all_corrected rows.now no_more_naks (options_of request.now) }
    ensures few { length result.items ≤ 64 }
{
    let mut list = ArrayVec::new();
    for option in request {
        if class_in(rows, no_more_naks, option) == Class::Nak {
            list.push(suggested(rows, option));
        }
    }
    list
}

// Adds what must be named and is not.
fn add_missing(rows: &[OptionRow], request: &[Opt<'_>], list: &mut ArrayVec<MadeOpt, 65>)
    requires few { length list.old.items ≤ 64 }
    requires one { count_by (λ row. row.must_be_named) rows.now ≤ 1 }
    ensures { all_made_of list.new.items
        ≡ all_made_of list.old.items ++ map suggestion_of (filter (is_missing (options_of request.now)) rows.now) }
{
    for row in rows {
        if row.must_be_named && !names(request, row.kind) {
            list.push(row.suggested());
        }
    }
}

fn class_in(rows: &[OptionRow], no_more_naks: bool, option: &Opt<'_>) -> Class
    ensures { result ≡ class_of rows.now no_more_naks (option_of option.now) }
{
    let Some(row) = row_for(rows, option.kind) else {
        return Class::Reject;
    };
    match number(row.width, option.value) {
        None => Class::Reject,
        Some(n) if row.good.takes(n) => Class::Ack,
        Some(_) => not_good(no_more_naks),
    }
}

// The class of an option that is negotiated and whose value is not taken.
fn not_good(no_more_naks: bool) -> Class
    ensures { result ≡ class_not_good no_more_naks }
{
    if no_more_naks {
        Class::Reject
    } else {
        Class::Nak
    }
}

// What a Configure-Nak has in an option's place.
fn suggested(rows: &[OptionRow], option: &Opt<'_>) -> MadeOpt
    ensures { made_of result ≡ suggestion rows.now (option_of option.now) }
{
    match row_for(rows, option.kind) {
        Some(row) => row.suggested(),
        None => made(option.kind, &[]),
    }
}
