//! Requests of a RADIUS server that are refused, each cause of it, those that are passed over, and how many come in one turn (RFC 5176
//! sections 3 and 3.5). They and the replies were made as those about the circuit.
use super::authentication::stop;
use super::changes::{TO_GOLD, all_ask, asks, packet_100, replies, run_changes};
use super::{Ended, has};
use crate::asserts::{assert_holds, assert_same};
use bng_base::{Datagram, Ip4, Peer, Role};
use bng_plant::Arrival;
use std::alloc::Global;
use std::process::Abort;
use std::sync::Wait;
use std::test::Fail;
use std::thread::Threads;

/// Requests and the replies to them. Of several causes of a refusal the first counts: NAS Identification Mismatch (403), Unsupported Attribute
/// (401), Invalid Request (404), Invalid Attribute Value (407), Missing Attribute (402), Session Context Not Found (503) (RFC 5176 section 3.5).
const VERDICTS: &[(&str, &str)] = &[
    // another NAS-IP-Address, a Service-Type, a Session-Timeout of three octets, a profile that is none, and no session: one fault less each
    // time
    (
        "2b0a002df09f35a6d4fb0f96f06c9a41a4f7317304060a0909090606000000011b050000010b0873696c766572",
        "2d0a001ae5367384e187de9942a25bfca6add60e650600000193",
    ),
    (
        "2b0b0027c215e32f13951274858d5b4ceaa7f2050606000000011b050000010b0873696c766572",
        "2d0b001a07d47f7a391077f8bc9b734bbd99e2a8650600000191",
    ),
    (
        "2b0c00215bcf1b7c3e0d4999501e1c6cecd27c2a1b050000010b0873696c766572",
        "2d0c001accaa2ac2d4c50dd66f37a056f91d0b47650600000194",
    ),
    (
        "2b0d001c8630fb08c56389e9e6ede60e914b24f50b0873696c766572",
        "2d0d001aac63a641fa8af3e46451dcef637d3ea0650600000197",
    ),
    (
        "2b0e001aac56cf491f1a7284390807889b458ac30b06676f6c64",
        "2d0e001a32078f7f9bcac70e4bc2933357be2079650600000192",
    ),
    (
        "2b0f0034cb46356083bb92b8022f98dd87cee1932c1a3635353366313030303430323030303030303030303030310b06676f6c64",
        "2d0f001ae35b0d6dc2a8766275a245bfeb4209d96506000001f7",
    ),
    // another NAS-Identifier
    (
        "2b10003a55c6f850794db86c31c413758d9595482c1a3635353366313030303430313030303030303030303030312006626e67320b06676f6c64",
        "2d10001a84850f21060cf5090bfb8fbb8629c71c650600000193",
    ),
    // nothing to change
    (
        "2b11002e6b59d4320b2b4fa6dca903a296284d862c1a363535336631303030343031303030303030303030303031",
        "2d11001a02758b88cf4a26560a7f509fa5062e07650600000192",
    ),
    // the next term of the session
    (
        "2b120034384b9dbd7a3f1ab74f417ca4500804e52c1a3635353366313030303430313030303030303030303030320b06676f6c64",
        "2d12001a2dd94b87cd5edb1de5356bad81cd17e36506000001f7",
    ),
    // a session of no shard, and a text that names no session
    (
        "2b130034c1f785030ed698763f1561cb24857ebe2c1a3635353366313030313030313030303030303030303030310b06676f6c64",
        "2d13001a77a8ff1e2cbb0544a6c8eb834099fc0b6506000001f7",
    ),
    (
        "2b140024c3afd3868fb074c28c2c95d7777454fd2c0a30303030303030310b06676f6c64",
        "2d14001a749b378fee56b962a462a1274d50ac556506000001f7",
    ),
    // an address that nobody holds, and another than that of the session
    (
        "2b1500207f7a2ccbe0e8985c4f509d35447ed96a08060a0000090b06676f6c64",
        "2d15001a66ccda7fa0963e8bf23cb48340e11c596506000001f7",
    ),
    (
        "2b16003a74e66b9aac67cd5e35b70de5d5a82a7b2c1a36353533663130303034303130303030303030303030303108060a0000030b06676f6c64",
        "2d16001a74aebe7852651975318926fad434e6136506000001f7",
    ),
    // another User-Name, NAS-Port, Calling-Station-Id, NAS-Port-Id
    (
        "2b17003c7f753862ae85d98ed033b42e41e7ea282c1a36353533663130303034303130303030303030303030303101086669786564320b06676f6c64",
        "2d17001a537f23ffe47417fb7a9f4548d8aa60cb6506000001f7",
    ),
    (
        "2b18003a64f7e4a6ade9daaeedb7ff5a2e134f722c1a3635353366313030303430313030303030303030303030310506000004020b06676f6c64",
        "2d18001acebb72c223488d791c95683e6a31de856506000001f7",
    ),
    (
        "2b190047f9f653fa86ca063b229eed248ab2e7f92c1a3635353366313030303430313030303030303030303030311f1330323a30303a30303a30303a30303a30320b06676f6c64",
        "2d19001a793928826dc9bc38b99b60428ec1c40b6506000001f7",
    ),
    (
        "2b1a004a3db474679b441c9ffb72daba0d71aeb02c1a363535336631303030343031303030303030303030303031571670312f3032303030303030303030322f313032350b06676f6c64",
        "2d1a001a3979b9cdba340a3339d9228531ffc6126506000001f7",
    ),
    // a Disconnect-Request that would change something, and one that names no session
    (
        "281b0034eac1f23d620f2fd9b73751a2ed82a5982c1a3635353366313030303430313030303030303030303030310b06676f6c64",
        "2a1b001acfa12f4a4af355f498dac09c356a2edc650600000191",
    ),
    (
        "281c0034c1f99d0543455e3b8a6fd5836f2d9fad2c1a363535336631303030343031303030303030303030303031550600000258",
        "2a1c001a951598f1e837907de6902dae8320952a650600000191",
    ),
    (
        "281d002a21f04380e87984a2b48933c0c2d5b946571670312f3032303030303030303030312f31303235",
        "2a1d001a9e053bfd48a8660833e6ea38f74154f2650600000192",
    ),
    // all that a CoA-Request may have, with the values of the circuit
    (
        "2b1e00a391d98db2e077aa344e3120474d204c1b01086669786564310406c0a8011005060000040108060a0000020b06676f6c64120768656c6c6f1907636c6173731b0600000e101c06000002581f1330323a30303a30303a30303a30303a30312006626e67312c1a36353533663130303034303130303030303030303030303137066553f100550600000258571670312f3032303030303030303030312f31303235",
        "2c1e0014955eb1cdbc5cb2f5b271281d00a110a5",
    ),
];

/// A run with this request has this one reply.
fn is_replied<R: Threads + Wait + Sync + Abort>(
    rt: &R,
    alloc: Global,
    request: &str,
    reply: &str,
) -> Result<(), Fail> {
    let ended = run_changes(rt, alloc, all_ask(alloc, &[request])?, 10)?;
    replies(rt, alloc, &ended, &[reply])
}

#[test]
fn each_cause_refuses_and_the_first_counts(rt: HostRuntime) -> Result<(), Fail> {
    let alloc = rt.alloc();
    for (request, reply) in VERDICTS {
        is_replied(&rt, alloc, *request, *reply)?;
    }
    Ok(())
}

/// Datagrams of the peer that are passed over.
const IGNORED: &[&str] = &[
    // an octet of the authenticator changed
    "2b010034ddefa9776ac7489797717e0eb072d84f2c1a3635353366313030303430313030303030303030303030310b06676f6c64",
    // a wrong Message-Authenticator
    "2b0800466723cbdd1fcde3c84df93529c018aebc2c1a3635353366313030303430313030303030303030303030310b06676f6c645012000102030405060708090a0b0c0d0e0f",
    // Event-Timestamps 301 s after the second on the wall and before it
    "2b09003acef33b9abdae26bf842060fb09b385b82c1a3635353366313030303430313030303030303030303030310b06676f6c6437066553f22d",
    "2b09003a28168d0e21034903a41fc030e1a310032c1a3635353366313030303430313030303030303030303030310b06676f6c6437066553efd3",
    // an Accounting-Request, and a CoA-ACK
    "040c00343d8a6b8505b35720d9d51b5774a1c98b2c1a3635353366313030303430313030303030303030303030310b06676f6c64",
    "2c0d0034fa7ae85a78da3ebb1c22baf2ab37883e2c1a3635353366313030303430313030303030303030303030310b06676f6c64",
    // with Length 19, and of one octet
    "2b0e00130025c511144b8c3ef29b9132ab4409532c1a3635353366313030303430313030303030303030303030310b06676f6c64",
    "2b",
];

/// Event-Timestamps 300 s after the second on the wall and before it, in requests for the profile bronze; and the replies.
const IN_TIME: &[&str] = &[
    "2b0a003c6e2898f8968c67e949288377c75fe3f02c1a3635353366313030303430313030303030303030303030310b0862726f6e7a6537066553f22c",
    "2b0b003cad5b232b109ebc34a632ea17d8427a572c1a3635353366313030303430313030303030303030303030310b0862726f6e7a6537066553efd4",
];

const IN_TIME_REPLIES: &[&str] = &[
    "2c0a0014ac750fecd4f7b2abc82852798a394334",
    "2c0b00149a72cf522e44e62440da2e7238b71937",
];

/// Who may not ask.
const STRANGER: Peer = Peer {
    ip: Ip4(0x7f00_0002),
    port: 3798,
};

/// A request of a stranger comes, then those that are passed over, and the two in time; then a packet, and `stop`.
fn ignored(alloc: Global) -> Result<Vec<Arrival>, Fail> {
    let mut script = Vec::new(alloc);
    let request = hex::decode(alloc, TO_GOLD)?;
    script.push(Arrival::new(Role::Coa, STRANGER, request.as_slice()))?;
    then_ask(alloc, &mut script, IGNORED)?;
    then_ask(alloc, &mut script, IN_TIME)?;
    script.push(packet_100())?;
    script.push(stop(0))?;
    Ok(script)
}

/// These requests come next, in this order.
fn then_ask(alloc: Global, script: &mut Vec<Arrival>, requests: &[&str]) -> Result<(), Fail> {
    for octets in requests {
        script.push(asks(alloc, *octets)?)?;
    }
    Ok(())
}

#[test]
fn what_is_not_admitted_is_passed_over(rt: HostRuntime) -> Result<(), Fail> {
    let alloc = rt.alloc();
    let ended = run_changes(&rt, alloc, ignored(alloc)?, 10)?;
    replies(&rt, alloc, &ended, IN_TIME_REPLIES)?;
    assert_holds(
        &rt,
        has(
            ended.out.text(),
            b"profile bronze in=100 out=0\nprofile gold in=0 out=0\n",
        ),
    );
    Ok(())
}

/// Disconnect-Requests with the Identifiers 1 to 33 that name no session.
const NAMELESS: &[&str] = &[
    "2801001457f7aa0a68bc6f421eb2d57a4c7c1cdb",
    "28020014a0d9422e553cc1d7c5be4d10e0a838ee",
    "28030014ab401f26985b1dcf82f05ff47ad523d4",
    "280400142ff067a71337458163706333671aeeb5",
    "28050014aae2b89fda6b737499b422f93639696e",
    "28060014a6f16c8e7ca8fe7059fd7ba927baccae",
    "280700140ccb4c18fc14e2226875bacb3d6d8582",
    "280800142ff297fc37e2b1ca87142f05f6782212",
    "2809001429548d1335dd0860ddf4c7c5821a5543",
    "280a0014918e637821c80ae3cee84f8efdaf688d",
    "280b001485184c4d7054d978474c3776d5f0a19f",
    "280c00144079fc123311386cd89b00ccaad64e8a",
    "280d0014d7510d2a0917965cdfacd6b66a5413e7",
    "280e0014adeafa8084bce74f5e4ae829a51b0e91",
    "280f001402db5e4c25e0c2a4e255f192832008a7",
    "281000144e6f0bd9ead87f321ed81253751b851a",
    "28110014d8fb4b8ef3d886aed43bf3fe84d9070d",
    "2812001476025883b058aed377e757287aef87c0",
    "28130014794468a71b20fe70f6015a522892bfaa",
    "281400146aa7cb48ff66e35f2846ae1a562ca3fd",
    "28150014cad73b96e4a0ef843c6d5fa71be31e43",
    "281600143c9cbd1cb20be66f4946a76bdd4ab833",
    "28170014e809e5d72a2a230dd8567d7cfe58b392",
    "2818001495a0f381a533fbc1362dc13fb383b3a4",
    "28190014fbc3337243f2d1fd88503d0290ba973d",
    "281a0014f7fb7621ecb3582fdfb6afd153c57898",
    "281b0014b8aa9b6724fe9635b82f1547008c34b7",
    "281c0014b531664c08a3b9fc11a17ea0330dc4b2",
    "281d00142ef20201820b279244b640beb9aab937",
    "281e00142c03c9fd18b717bcd69bdd041ad5e449",
    "281f0014e1e781f54be5c0781143f20e50a4c2ad",
    "282000143686db232f89be16bc70285e8a2606c8",
    "28210014c9973309073b66d7178c0b22caafb973",
];

/// Asserts that this is the reply with Missing Attribute to the request of this Identifier.
fn assert_missing_attribute(rt: &impl Abort, found: Option<&Datagram>, id: u8) {
    let datagram = found.expect(rt, "a datagram");
    let octets = datagram.octets.as_slice();
    assert_same(rt, &datagram.role, &Role::Coa);
    assert_holds(rt, octets.starts_with(&[0x2a, id, 0, 0x1a]));
    assert_holds(rt, octets.ends_with(b"\x65\x06\x00\x00\x01\x92"));
    assert_same(rt, &octets.len(), &26);
}

/// All of them come, then a packet, and `stop`.
fn nameless(alloc: Global) -> Result<Vec<Arrival>, Fail> {
    let mut script = Vec::new(alloc);
    then_ask(alloc, &mut script, NAMELESS)?;
    script.push(packet_100())?;
    script.push(stop(0))?;
    Ok(script)
}

/// A run sent the replies to the first 32, and then the packet: it is sent before the replies of its turn, and with it comes the 33rd
/// request. Then it sent the reply to that, and the answer to `stop`.
fn sends_32_and_one(rt: &impl Abort, ended: &Ended) {
    let sent = ended.plant.sent().iter();
    let mut others = sent.filter(|datagram| datagram.role != Role::Acct);
    for id in 1..33u8 {
        assert_missing_attribute(rt, others.next(), id);
    }
    assert_role(rt, others.next(), Role::Core);
    assert_missing_attribute(rt, others.next(), 33);
    assert_role(rt, others.next(), Role::Control);
    assert_holds(rt, others.next().is_none());
}

/// Asserts that this is a datagram of this role.
fn assert_role(rt: &impl Abort, found: Option<&Datagram>, role: Role) {
    let datagram = found.expect(rt, "a datagram");
    assert_same(rt, &datagram.role, &role);
}

#[test]
fn a_turn_takes_32_requests(rt: HostRuntime) -> Result<(), Fail> {
    let alloc = rt.alloc();
    let ended = run_changes(&rt, alloc, nameless(alloc)?, 10)?;
    sends_32_and_one(&rt, &ended);
    Ok(())
}
