ghost use Rattle.std.specs.Prelude.{◌≡◌, ◌≤◌, None, IsSome, IfSome, IfNone, slice_set};
ghost use Rattle.bng_rad_client.specs.Table.{request_of};
ghost use Rattle.bng_rad_client.specs.Due.{is_sought, IsOldestBelow, NoneBelow};
ghost use Rattle.bng_rad_client.specs.Sends.{IsGivenUp, IsSentAgain};

use crate::due::Sought;
use crate::requests::Requests;
use crate::rules::Owner;
use bng_base::Frame;

// Gives up the request that was sent as often as it is to be and whose moment came first.
pub(crate) fn give_up(requests: &mut Requests, now: u64, tries: u8) -> Option<Owner>
    ensures some { IfSome result (IsGivenUp requests.old requests.new (is_sought (Sought.Timeout tries) now)) }
    ensures none { IfNone result (NoneBelow (is_sought (Sought.Timeout tries) now) requests.old.places 256) }
    ensures kept { IfNone result (requests.new ≡ requests.old) }
{
    let due = requests.oldest(now, Sought::Timeout(tries))?;
    match requests.take(due.id) {
        Some(request) => Some(request.owner),
        None => unreachable!(),
    }
}

// The frame of a request that is sent again now.
pub(crate) fn send_again(requests: &mut Requests, id: u8, now: u64) -> Frame
    requires { IsSome (request_of requests.old.places id) }
    ensures { IsSentAgain requests.old requests.new id now result }
{
    match requests.take(id) {
        Some(request) => {
            let mut frame = Frame::new();
            frame.set(request.octets.as_slice());
            let again = request.again(now);
            requests.put(id, again);
            frame
        }
        None => unreachable!(),
    }
}
