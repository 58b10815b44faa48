//! The requests that a settlement sends to the server of accounting.
ghost use Rattle.std.specs.Prelude.{◌≡◌, ◌≤◌, length};
ghost use Rattle.bng_base.specs.Stretch.{ExtendsPlant};
ghost use Rattle.bng_billing.specs.State.{noted};
ghost use Rattle.bng_desk.specs.Intake.{GivesRecords, ResendsRecords, SendsRecords};
ghost use Rattle.bng_desk.specs.Reading.{sending};

use crate::calls::send;
use bng_base::{Frame, Role};
use bng_billing::Billing;
use bng_plant::Plant;

// Sends a request, and notes whether the outside did.
fn send_one<P: Plant>(plant: &mut P, billing: &mut Billing, id: u8, request: &Frame) -> bool
    requires size { length request.now.payload ≤ 4096 }
    ensures noted { billing.new ≡ noted id result billing.old }
    ensures told { ExtendsPlant (P.told plant.old) (P.told plant.new) (sending Role.Acct billing.old.client.acct_server request.now.payload result) }
{
    let sent = send(plant, Role::Acct, billing.server(), request.payload());
    billing.note(id, sent);
    sent
}

// Sends the requests that are due again, the longest due first.
fn resend_all<P: Plant>(plant: &mut P, billing: &mut Billing, now: u64)
    ensures { ResendsRecords now (P.told plant.old) (P.told plant.new) billing.old billing.new }
{
    // The frame of a request is prepared where it is declared: no room for one where none is due.
    if !billing.is_due(now) {
        return;
    }
    while let Some((id, request)) = billing.resend(now) {
        let _sent = send_one(plant, billing, id, &request);
    }
}

// Sends the records that wait, in the order in which they were formed, as long as there is an identifier.
fn give_all<P: Plant>(plant: &mut P, billing: &mut Billing, now: u64)
    ensures { GivesRecords now (P.told plant.old) (P.told plant.new) billing.old billing.new }
{
    // As above, where none waits.
    if !billing.waits() {
        return;
    }
    while let Some((_number, id, request)) = billing.send(now) {
        let _sent = send_one(plant, billing, id, &request);
    }
}

/// Sends the requests of accounting that are due again at this moment in milliseconds, and then the records that wait, as long as there
/// is an identifier. Each that the outside sent is noted.
pub(crate) fn send_records<P: Plant>(plant: &mut P, billing: &mut Billing, now: u64)
    ensures { SendsRecords now (P.told plant.old) (P.told plant.new) billing.old billing.new }
{
    resend_all(plant, billing, now);
    give_all(plant, billing, now);
}
