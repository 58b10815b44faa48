//! The options of the gateway's own Configure-Request.
ghost use Rattle.std.specs.Prelude.{◌≡◌};
ghost use Rattle.bng_ppp_wire.specs.MadeOption.{made_of, all_made_of};
ghost use Rattle.bng_lcp.specs.ConfigureRequest.{asked as asked_of, auth_option as option_of_auth};

use crate::option::{AUTHENTICATION_PROTOCOL, CHAP_WITH_MD5, MAGIC_NUMBER, MAXIMUM_RECEIVE_UNIT};
use arrayvec::ArrayVec;
use bng_base::AuthKind;
use bng_ppp_wire::{MadeOpt, made, protocol};

/// What a Configure-Request of the gateway asks for, in the order of its options. None says that the option is left out.
#[derive(Clone, Copy, PartialEq, Eq, Debug)]
pub struct LcpOptions {
    /// Maximum-Receive-Unit, in octets.
    pub mru: Option<u16>,
    /// Authentication-Protocol.
    pub auth: AuthKind,
    /// Magic-Number.
    pub magic: Option<u32>,
}

/// A Configure-Request that was sent.
#[derive(Clone, Copy)]
pub struct SentLcpRequest {
    /// Its Identifier.
    pub id: u8,
    pub options: LcpOptions,
}

/// The options in the order in which they are asked for.
pub fn asked(options: &LcpOptions) -> ArrayVec<MadeOpt, 3>
    ensures { all_made_of result.items ≡ asked_of options.now }
{
    let mut list = ArrayVec::new();
    if let Some(mru) = options.mru {
        list.push(made(MAXIMUM_RECEIVE_UNIT, &mru.to_be_bytes()));
    }
    list.push(auth_option(options.auth));
    if let Some(magic) = options.magic {
        list.push(made(MAGIC_NUMBER, &magic.to_be_bytes()));
    }
    list
}

fn auth_option(auth: AuthKind) -> MadeOpt
    ensures { made_of result ≡ option_of_auth auth }
{
    match auth {
        AuthKind::Chap => {
            let [high, low] = protocol::CHAP.to_be_bytes();
            made(AUTHENTICATION_PROTOCOL, &[high, low, CHAP_WITH_MD5])
        }
        AuthKind::Pap => made(AUTHENTICATION_PROTOCOL, &protocol::PAP.to_be_bytes()),
    }
}
