//! The options of the gateway's own Configure-Request.
ghost use Rattle.std.specs.Prelude.{◌≡◌};
ghost use Rattle.bng_ppp_wire.specs.MadeOption.{all_made_of};
ghost use Rattle.bng_ipcp.specs.ConfigureRequest.{asked as asked_of};

use crate::option::IP_ADDRESS;
use arrayvec::ArrayVec;
use bng_base::Ip4;
use bng_ppp_wire::{MadeOpt, made};

/// What a Configure-Request of the gateway asks for. None says that the option is left out.
#[derive(Clone, Copy, PartialEq, Eq, Debug)]
pub struct IpcpOptions {
    /// IP-Address: the gateway's own.
    pub address: Option<Ip4>,
}

/// A Configure-Request that was sent.
#[derive(Clone, Copy)]
pub struct SentIpcpRequest {
    /// Its Identifier.
    pub id: u8,
    pub options: IpcpOptions,
}

/// The options in the order in which they are asked for.
pub fn asked(options: &IpcpOptions) -> ArrayVec<MadeOpt, 1>
    ensures { all_made_of result.items ≡ asked_of options.now }
{
    let mut list = ArrayVec::new();
    if let Some(address) = options.address {
        list.push(made(IP_ADDRESS, &address.0.to_be_bytes()));
    }
    list
}
