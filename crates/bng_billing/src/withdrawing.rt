//! The identifiers that the stop frees.
ghost use Rattle.std.specs.Prelude.{◌≡◌};
ghost use Rattle.bng_billing.specs.Stopping.{is_known, Withdraws, WithdrawsBelow};

use bng_acct::{RecordNo, Spool};
use bng_rad_client::{Client, Lane as Kind, Owner};

// Whether the record of a request is open.
fn is_known(spool: &Spool, owner: Owner) -> bool
    ensures { result ≡ is_known spool.now.sheets owner }
{
    match owner {
        Owner::Record(number) => spool.knows(RecordNo(number.0)),
        Owner::Ask { .. } => false,
    }
}

// Frees an identifier where the record of its request is open no longer.
fn withdraw(spool: &Spool, client: &mut Client, sent: &mut [bool; 256], id: u8)
    ensures { Withdraws id spool.now client.old client.new sent.old sent.new }
{
    let Some(owner) = client.owner(Kind::Acct, id) else {
        return;
    };
    if !is_known(spool, owner) {
        let _ = client.withdraw(Kind::Acct, id);
        sent[usize::from(id)] = false;
    }
}

/// Frees each identifier whose record is open no longer.
pub(crate) fn withdraw_lost(spool: &Spool, client: &mut Client, sent: &mut [bool; 256])
    ensures { WithdrawsBelow 256 spool.now client.old client.new sent.old sent.new }
{
    for i in 0..256usize {
        withdraw(spool, client, sent, i as u8);
    }
}
