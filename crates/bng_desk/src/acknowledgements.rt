//! What came from the server of accounting: the records that it acknowledges are open no longer.
ghost use Rattle.bng_desk.specs.Intake.{TakesAcknowledgements};

use crate::calls::receive;
use bng_base::{Frame, Received, Role};
use bng_billing::Billing;
use bng_plant::Plant;

/// So many datagrams of Acct a turn takes at most.
const ACKNOWLEDGEMENTS_MOST: usize = 128;

/// Takes datagrams of Acct until Empty, Failed or the number of a turn, and lets accounting hear each. Says whether none was taken.
pub(crate) fn take_acknowledgements<P: Plant>(
    plant: &mut P,
    frame: &mut Frame,
    billing: &mut Billing,
) -> bool
    ensures { TakesAcknowledgements (P.told plant.old) (P.told plant.new) billing.old billing.new result }
{
    let mut quiet = true;
    for _taken in 0..ACKNOWLEDGEMENTS_MOST {
        match receive(plant, Role::Acct, frame) {
            Received::Got { from, cut: _cut } => {
                let _found = billing.take(from, frame.payload());
                quiet = false;
            }
            Received::Empty | Received::Failed => return quiet,
        }
    }
    quiet
}
