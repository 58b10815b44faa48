use crate::asserts::{assert_octets, assert_same};
use bng_base::Listed;
use bng_config::Fault;
use bng_gate::{Unopened, Refusal, line_of, status};
use bng_schema::{Field, Key, Rule};
use std::process::Abort;
use std::test::Fail;

// A refusal has this status, and its line has these four parts.
fn assert_line(rt: &impl Abort, refusal: &Refusal, wanted: u8, parts: (&str, &str, &[u8], &str)) {
    assert_same(rt, &status(refusal), &wanted);
    let line = line_of(refusal);
    let (front, middle, name, back) = parts;
    assert_same(rt, &line.front, &front);
    assert_same(rt, &line.middle.as_str(), &middle);
    assert_octets(rt, line.name, name);
    assert_same(rt, &line.back, &back);
}

// The configuration has this fault.
fn assert_fault(rt: &impl Abort, fault: Fault, middle: &str, name: &[u8]) {
    let refusal = Refusal::Refused(fault);
    assert_line(rt, &refusal, 2, ("bng: config: ", middle, name, "\n"));
}

#[test]
fn a_fault_of_the_configuration_is_told_in_one_line(rt: HostRuntime) -> Result<(), Fail> {
    assert_fault(&rt, Fault::TooLong, "C1 text", b"");
    assert_fault(&rt, Fault::NotToml, "C2 text", b"");
    let key = Key::Of(Field::StaticSession, 11);
    let fault = Fault::Broken(Rule::C14, key);
    assert_fault(&rt, fault, "C14 static.12.session", b"");
    let name = Vec::from_slice(rt.alloc(), b"pool.2.speed")?;
    assert_fault(
        &rt,
        Fault::Unknown(Listed::of(name)),
        "C3 ",
        b"pool.2.speed",
    );
    Ok(())
}

/// What is not opened, and the line's first, second and last part.
const OPENINGS: &[(Unopened, &str, &str, &str)] = &[
    (
        Unopened::Configuration,
        "bng: cannot open configuration\n",
        "",
        "",
    ),
    (Unopened::Core, "bng: cannot open core\n", "", ""),
    (Unopened::Tunnel, "bng: cannot open tunnel\n", "", ""),
    (Unopened::Coa, "bng: cannot open coa\n", "", ""),
    (Unopened::Access(16), "bng: cannot open access ", "16", "\n"),
    (Unopened::Seed, "bng: cannot open seed\n", "", ""),
];

#[test]
fn what_is_not_opened_is_told_in_one_line(rt: HostRuntime) {
    for (what, front, middle, back) in OPENINGS {
        let refusal = Refusal::CannotOpen(*what);
        assert_line(&rt, &refusal, 3, (front, middle, b"", back));
    }
}

#[test]
fn a_run_that_fails_says_so_in_one_line(rt: HostRuntime) {
    let line = ("bng: out of memory\n", "", b"".as_slice(), "");
    assert_line(&rt, &Refusal::OutOfMemory, 4, line);
    let line = ("bng: trace failed\n", "", b"".as_slice(), "");
    assert_line(&rt, &Refusal::TraceFailed, 5, line);
    let line = ("bng: output failed\n", "", b"".as_slice(), "");
    assert_line(&rt, &Refusal::OutputFailed, 5, line);
}
