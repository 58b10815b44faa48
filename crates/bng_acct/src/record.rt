//! A record as a request.
ghost use Rattle.std.specs.Prelude.{◌≡◌, ◌+◌, ◌≤◌, ◌∷◌, ◌++◌, [], List, length, min, ◌/◌, ◌%◌, ◌^◌};
ghost use Rattle.bng_radius_wire.specs.Attributes.{Field};
ghost use Rattle.bng_acct.specs.Attributes.{octets, identity, sender, unless_start, low_octets, seconds, usage, in_stop, cause, gigawords, port, front, rest, GoesOn};
ghost use Rattle.bng_acct.specs.Texts.{session_id as id_of};
ghost use Rattle.bng_acct.specs.Request.{AreClasses, HoldsRequest};

use crate::attributes::{FRAMED, PPP, VIRTUAL, put, put_length, put_number, put_station};
use crate::facts::{Moment, Record, StatusType, TermFacts};
use crate::rules::AcctRules;
use crate::texts::{port_id, session_id};
use bng_base::{Book, Frame};
use bng_radius_wire::kinds;

// An Accounting-Request (RFC 2866 section 4.1) whose identifier, length and authenticator are still to be written.
const HEADER: [u8; 20] = [4, 0, 0, 0, 0, 0, 0, 0, 0, 0, 0, 0, 0, 0, 0, 0, 0, 0, 0, 0];

fn put_identity(rules: &AcctRules, facts: &TermFacts, into: &mut Frame)
    requires headroom { into.old.headroom ≡ 64 }
    requires room { length into.old.payload ≤ 20 }
    ensures goes_on { GoesOn into.old.payload into.new.payload (identity rules.now facts.now) }
    ensures size { length into.new.payload ≤ length into.old.payload + 160 }
    ensures headroom { into.new.headroom ≡ 64 }
{
    put(into, kinds::USER_NAME, facts.user.as_slice());
    put_number(into, kinds::NAS_IP_ADDRESS, rules.nas_ip.0);
    put_number(into, kinds::NAS_PORT, u32::from(facts.term.session.0));
    put_number(into, kinds::SERVICE_TYPE, FRAMED);
    put_number(into, kinds::FRAMED_PROTOCOL, PPP);
    put_number(into, kinds::FRAMED_IP_ADDRESS, facts.address.0);
}

fn put_classes(facts: &TermFacts, into: &mut Frame)
    requires classes { (classes : List Field) × AreClasses classes facts.now.class.items }
    requires headroom { into.old.headroom ≡ 64 }
    requires room { length into.old.payload ≤ 200 }
    ensures goes_on { (classes : List Field) → AreClasses classes facts.now.class.items → GoesOn into.old.payload into.new.payload classes }
    ensures size { length into.new.payload ≤ length into.old.payload + 512 }
    ensures headroom { into.new.headroom ≡ 64 }
{
    into.put_back(facts.class.as_slice());
}

fn put_sender(rules: &AcctRules, status: StatusType, into: &mut Frame)
    requires headroom { into.old.headroom ≡ 64 }
    requires room { length into.old.payload ≤ 800 }
    ensures goes_on { GoesOn into.old.payload into.new.payload (sender rules.now status) }
    ensures size { length into.new.payload ≤ length into.old.payload + 72 }
    ensures headroom { into.new.headroom ≡ 64 }
{
    put(into, kinds::NAS_IDENTIFIER, rules.name.as_slice());
    let code = match status {
        StatusType::Start => 1,
        StatusType::Stop => 2,
        StatusType::Interim => 3,
    };
    put_number(into, kinds::ACCT_STATUS_TYPE, code);
}

// The low and the high half of a sum.
fn halves(sum: u64) -> (u32, u32)
    ensures low { result.0 ≡ sum % 2 ^ 32 }
    ensures high { result.1 ≡ sum / 2 ^ 32 }
{
    ((sum % 0x1_0000_0000) as u32, (sum / 0x1_0000_0000) as u32)
}

fn put_low_octets(status: StatusType, book: &Book, into: &mut Frame)
    requires headroom { into.old.headroom ≡ 64 }
    requires room { length into.old.payload ≤ 900 }
    ensures goes_on { GoesOn into.old.payload into.new.payload (unless_start status (low_octets book.now)) }
    ensures size { length into.new.payload ≤ length into.old.payload + 12 }
    ensures headroom { into.new.headroom ≡ 64 }
{
    match status {
        StatusType::Start => {}
        StatusType::Interim | StatusType::Stop => {
            put_number(into, kinds::ACCT_INPUT_OCTETS, halves(book.input).0);
            put_number(into, kinds::ACCT_OUTPUT_OCTETS, halves(book.output).0);
        }
    }
}

// Whole seconds since the term began.
fn seconds_of(facts: &TermFacts, moment: Moment) -> u32
    requires { facts.now.began ≤ moment.now }
    ensures { result ≡ seconds facts.now moment }
{
    ((moment.now - facts.began) / 1000).min(0xffff_ffff) as u32
}

fn put_usage(status: StatusType, facts: &TermFacts, moment: Moment, into: &mut Frame)
    requires began { facts.now.began ≤ moment.now }
    requires headroom { into.old.headroom ≡ 64 }
    requires room { length into.old.payload ≤ 900 }
    ensures goes_on { GoesOn into.old.payload into.new.payload (unless_start status (usage facts.now moment)) }
    ensures size { length into.new.payload ≤ length into.old.payload + 18 }
    ensures headroom { into.new.headroom ≡ 64 }
{
    match status {
        StatusType::Start => {}
        StatusType::Interim | StatusType::Stop => {
            let carried = &facts.carried;
            put_number(into, kinds::ACCT_SESSION_TIME, seconds_of(facts, moment));
            put_number(
                into,
                kinds::ACCT_INPUT_PACKETS,
                halves(carried.input_packets).0,
            );
            put_number(
                into,
                kinds::ACCT_OUTPUT_PACKETS,
                halves(carried.output_packets).0,
            );
        }
    }
}

fn put_cause(status: StatusType, moment: Moment, into: &mut Frame)
    requires headroom { into.old.headroom ≡ 64 }
    requires room { length into.old.payload ≤ 1000 }
    ensures goes_on { GoesOn into.old.payload into.new.payload (in_stop status (cause moment)) }
    ensures size { length into.new.payload ≤ length into.old.payload + 6 }
    ensures headroom { into.new.headroom ≡ 64 }
{
    match status {
        StatusType::Start | StatusType::Interim => {}
        StatusType::Stop => put_number(into, kinds::ACCT_TERMINATE_CAUSE, u32::from(moment.cause)),
    }
}

fn put_gigawords(status: StatusType, book: &Book, into: &mut Frame)
    requires headroom { into.old.headroom ≡ 64 }
    requires room { length into.old.payload ≤ 1000 }
    ensures goes_on { GoesOn into.old.payload into.new.payload (unless_start status (gigawords book.now)) }
    ensures size { length into.new.payload ≤ length into.old.payload + 12 }
    ensures headroom { into.new.headroom ≡ 64 }
{
    match status {
        StatusType::Start => {}
        StatusType::Interim | StatusType::Stop => {
            put_number(into, kinds::ACCT_INPUT_GIGAWORDS, halves(book.input).1);
            put_number(into, kinds::ACCT_OUTPUT_GIGAWORDS, halves(book.output).1);
        }
    }
}

fn put_port(facts: &TermFacts, moment: Moment, into: &mut Frame)
    requires headroom { into.old.headroom ≡ 64 }
    requires room { length into.old.payload ≤ 1000 }
    ensures goes_on { GoesOn into.old.payload into.new.payload (port facts.now moment) }
    ensures size { length into.new.payload ≤ length into.old.payload + 48 }
    ensures headroom { into.new.headroom ≡ 64 }
{
    put_number(into, kinds::EVENT_TIMESTAMP, halves(moment.wall).0);
    put_number(into, kinds::NAS_PORT_TYPE, VIRTUAL);
    put(into, kinds::NAS_PORT_ID, port_id(facts.circuit).as_slice());
}

// The attributes of all records, up to the status type.
fn put_front(rules: &AcctRules, report: &Record, into: &mut Frame)
    requires classes { (classes : List Field) × AreClasses classes report.now.facts.class.items }
    requires headroom { into.old.headroom ≡ 64 }
    requires room { length into.old.payload ≤ 20 }
    ensures goes_on { (classes : List Field) → AreClasses classes report.now.facts.class.items → GoesOn into.old.payload into.new.payload (front rules.now report.now classes) }
    ensures size { length into.new.payload ≤ length into.old.payload + 763 }
    ensures headroom { into.new.headroom ≡ 64 }
{
    put_identity(rules, &report.facts, into);
    put_classes(&report.facts, into);
    put_station(report.facts.circuit, into);
    put_sender(rules, report.status, into);
}

// What follows of a record after its status type.
fn put_rest(rules: &AcctRules, report: &Record, into: &mut Frame)
    requires began { report.now.facts.began ≤ report.now.moment.now }
    requires headroom { into.old.headroom ≡ 64 }
    requires room { length into.old.payload ≤ 783 }
    ensures goes_on { GoesOn into.old.payload into.new.payload (rest rules.now report.now) }
    ensures size { length into.new.payload ≤ length into.old.payload + 122 }
    ensures headroom { into.new.headroom ≡ 64 }
{
    let status = report.status;
    let carried = &report.facts.carried;
    put_low_octets(status, carried, into);
    put(
        into,
        kinds::ACCT_SESSION_ID,
        &session_id(rules.wall, report.facts.term),
    );
    put_usage(status, &report.facts, report.moment, into);
    put_cause(status, report.moment, into);
    put_gigawords(status, carried, into);
    put_port(&report.facts, report.moment, into);
}

/// Writes a record as a request. The facts' Classes are whole attributes, 32 at most, and the record was formed no sooner
/// than its term began.
pub(crate) fn write(rules: &AcctRules, report: &Record, into: &mut Frame)
    requires classes { (classes : List Field) × AreClasses classes report.now.facts.class.items }
    requires began { report.now.facts.began ≤ report.now.moment.now }
    ensures { HoldsRequest rules.now report.now into.new }
{
    into.set(&HEADER);
    put_front(rules, report, into);
    put_rest(rules, report, into);
    put_length(into);
}
