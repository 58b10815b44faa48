use crate::asserts::assert_same;
use arrayvec::ArrayVec;
use bng_access::{NasRules, write};
use bng_auth::{Credentials, Proof};
use bng_base::{Circuit, Frame, Ip4, Mac, Peer, SessionNo, TunnelNo};
use bng_verdict::{AuthAsk, QuestionNo};
use std::test::Fail;

// The Request Authenticator and the secret of RFC 2865 section 7.1.
const AUTHENTICATOR: [u8; 16] = [
    0x0f, 0x40, 0x3f, 0x94, 0x73, 0x97, 0x80, 0x57, 0xbd, 0x83, 0xd5, 0xcb, 0x98, 0xf4, 0x22, 0x7a,
];

const SECRET: &[u8] = b"xyzzy5461";

fn rules() -> NasRules {
    let mut name = ArrayVec::new();
    let _ = name.try_extend_from_slice(b"bng1");
    NasRules {
        name,
        nas_ip: Ip4(0xc0a8_0110),
    }
}

fn listed(octets: &[u8]) -> ArrayVec<u8, 128> {
    let mut list = ArrayVec::new();
    let _ = list.try_extend_from_slice(octets);
    list
}

const fn pppoe(session: u16) -> Circuit {
    Circuit::Pppoe {
        port: 1,
        mac: Mac([2, 0, 0, 0, 0, 1]),
        session: SessionNo(session),
    }
}

const L2TP: Circuit = Circuit::L2tp {
    peer: Peer {
        ip: Ip4(0xc000_020a),
        port: 1701,
    },
    tunnel: TunnelNo(1027),
    session: SessionNo(1025),
};

fn ask(session: u16, circuit: Circuit, name: &[u8], proof: Proof) -> AuthAsk {
    AuthAsk {
        number: QuestionNo {
            session: SessionNo(session),
            ask: 1,
        },
        circuit,
        credentials: Credentials {
            name: listed(name),
            proof,
        },
    }
}

// The Response of RFC 2865 section 7.2, to a Challenge of its own.
const RESPONSE: Proof = Proof::Chap {
    id: 0x16,
    challenge: [
        0x2a, 0xee, 0x86, 0xf0, 0x8d, 0x0d, 0x55, 0x96, 0x9c, 0xa5, 0x97, 0x8e, 0x0d, 0x33, 0x67,
        0xa2,
    ],
    value: [
        0xe9, 0x75, 0x57, 0xc3, 0x16, 0x18, 0x58, 0x95, 0xf2, 0x93, 0xff, 0x63, 0x44, 0x07, 0x72,
        0x75,
    ],
};

// The User-Password of the first is that of RFC 2865 section 7.1, and the attributes of the second up to its
// Framed-Protocol are those of section 7.2. The other octets were made from the tables of RFC 2865 and RFC 2869 by a script,
// over Python's hashlib.
#[test]
fn requests_have_the_octets_of_their_questions(rt: HostRuntime) -> Result<(), Fail> {
    let cases = [
        (
            ask(3, pppoe(3), b"nemo", Proof::Pap(listed(b"arctangent"))),
            "010000880f403f9473978057bd83d5cb98f4227a01066e656d6f02120dbe708d93d413ce3196e43f782a0aee0406c0a801100506000000030606000000020706000000011f1330323a30303a30303a30303a30303a30312006626e67313d0600000005501200000000000000000000000000000000571370312f3032303030303030303030312f33",
        ),
        (
            ask(20, pppoe(20), b"flopsy", RESPONSE),
            "0100009e0f403f9473978057bd83d5cb98f4227a0108666c6f707379031316e97557c316185895f293ff63440772750406c0a801100506000000140606000000020706000000011f1330323a30303a30303a30303a30303a30312006626e67313c122aee86f08d0d55969ca5978e0d3367a23d0600000005501200000000000000000000000000000000571470312f3032303030303030303030312f3230",
        ),
        (
            ask(1025, L2TP, b"", Proof::Pap(listed(b""))),
            "0100007a0f403f9473978057bd83d5cb98f4227a010202126ccc13f9f2ba74ab5fe2e43f782a0aee0406c0a801100506000004010606000000020706000000012006626e67313d0600000005501200000000000000000000000000000000571c743139322e302e322e31303a313730312f313032372f31303235",
        ),
        (
            ask(
                65535,
                pppoe(65535),
                &[b'n'; 128],
                Proof::Pap(listed(&[b'p'; 128])),
            ),
            "010001780f403f9473978057bd83d5cb98f4227a01826e6e6e6e6e6e6e6e6e6e6e6e6e6e6e6e6e6e6e6e6e6e6e6e6e6e6e6e6e6e6e6e6e6e6e6e6e6e6e6e6e6e6e6e6e6e6e6e6e6e6e6e6e6e6e6e6e6e6e6e6e6e6e6e6e6e6e6e6e6e6e6e6e6e6e6e6e6e6e6e6e6e6e6e6e6e6e6e6e6e6e6e6e6e6e6e6e6e6e6e6e6e6e6e6e6e6e6e6e6e6e6e6e6e6e6e6e6e6e6e6e6e6e6e6e6e6e6e02821cbc638982ca04db2f92944f085a7a9eecf15fcf19aedfc40d6a2976e894b6ffa1ac2cd16b8989d355ad0b1b4596e71a3fa1b3258b3caea704fe416dae0c668fb55f7374f17ceb24c28255132731d2432b634c9c76516d7bdb6a88e692c6274d83bd5911da308327d11505e9e3211f095ac36111e1564124f7b3601bf5031a180406c0a8011005060000ffff0606000000020706000000011f1330323a30303a30303a30303a30303a30312006626e67313d0600000005501200000000000000000000000000000000571770312f3032303030303030303030312f3635353335",
        ),
    ];
    let mut frame = Frame::new();
    for (question, octets) in &cases {
        write(&rules(), SECRET, question, &AUTHENTICATOR, &mut frame);
        let text = hex::encode(rt.alloc(), frame.payload())?;
        assert_same(&rt, &text.as_str(), octets);
    }
    Ok(())
}
