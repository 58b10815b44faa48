use super::{FULL, assert_rows, assert_told, changed};
use std::alloc::{AllocError, Global};
use std::process::Abort;
use std::test::Fail;

/// This line, and so many times more.
fn lines_of(alloc: Global, line: &str, count: usize) -> Result<String, AllocError> {
    let mut lines = String::from_str(alloc, line)?;
    for _ in 0..count {
        lines.push_str(line)?;
    }
    Ok(lines)
}

/// The text in which this line stands so many times more, in the place of the one.
fn repeated(alloc: Global, line: &str, count: usize) -> Result<String, AllocError> {
    let lines = lines_of(alloc, line, count)?;
    changed(alloc, FULL, line, lines.as_str())
}

const SECOND_PORT: &str =
    "[[access]]\nlocal = \"127.0.0.1:9020\"\npeer = \"127.0.0.1:9021\"\nmac = \"02:00:00:00:00:ff\"\n";

const SECOND_LAC: &str = "[[lac]]\nip = \"192.0.2.12\"\n";

const SECOND_POOL: &str = "[[pool]]\nname = \"b\"\nfirst = \"10.0.0.2\"\nlast = \"10.3.255.1\"\n";

const SECOND_PROFILE: &str = "[[profile]]\nname = \"bronze\"\n";

const SECOND_CIRCUIT: &str =
    "[[static]]\nport = 2\nmac = \"02:00:00:00:00:02\"\nsession = 65534\naddress = \"10.0.0.3\"\nuser = \"fixed2\"\n";

/// A line, how many times more it stands there, and what is told then: as many entries as there may be break a later rule, since they
/// are all one.
const COUNTS: &[(&str, usize, &str)] = &[
    (SECOND_PORT, 15, "C8 access"),
    (SECOND_PORT, 14, "C10 access.3.local"),
    (SECOND_LAC, 15, "C8 lac"),
    (SECOND_LAC, 14, "C10 lac.3.ip"),
    (SECOND_POOL, 15, "C8 pool"),
    (SECOND_POOL, 14, "C10 pool.3.name"),
    (SECOND_PROFILE, 15, "C8 profile"),
    (SECOND_PROFILE, 14, "C10 profile.3.name"),
    (SECOND_CIRCUIT, 1023, "C8 static"),
    (SECOND_CIRCUIT, 1022, "C14 static.3.session"),
];

/// This is told where this line stands so many times more.
fn assert_told_of_lines(
    rt: &impl Abort,
    alloc: Global,
    line: &str,
    count: usize,
    wanted: &str,
) -> Result<(), AllocError> {
    let text = repeated(alloc, line, count)?;
    assert_told(rt, alloc, text.as_bytes(), wanted)
}

#[test]
fn lists_that_are_too_long_are_told(rt: HostRuntime) -> Result<(), Fail> {
    for (line, count, wanted) in COUNTS {
        assert_told_of_lines(&rt, rt.alloc(), line, *count, wanted)?;
    }
    Ok(())
}

/// With room for 64 terms.
const FEW_TERMS: &[(usize, &str)] = &[(63, "C14 static"), (62, "C14 static.3.session")];

/// The text with room for 64 terms, in which the second circuit stands so many times more.
fn with_few_terms(alloc: Global, count: usize) -> Result<String, AllocError> {
    let text = repeated(alloc, SECOND_CIRCUIT, count)?;
    changed(alloc, text.as_str(), "terms = 8192", "terms = 64")
}

/// This is told of it.
fn assert_told_of_circuits(
    rt: &impl Abort,
    alloc: Global,
    count: usize,
    wanted: &str,
) -> Result<(), AllocError> {
    let text = with_few_terms(alloc, count)?;
    assert_told(rt, alloc, text.as_bytes(), wanted)
}

#[test]
fn there_are_no_more_circuits_than_terms(rt: HostRuntime) -> Result<(), Fail> {
    for (count, wanted) in FEW_TERMS {
        assert_told_of_circuits(&rt, rt.alloc(), *count, wanted)?;
    }
    Ok(())
}

/// Lists of texts that are too long or empty, and ways to authenticate that there are not.
const LISTS: &[(&str, &str, &str)] = &[
    (
        "[\"inet\"]",
        "[\"1\", \"2\", \"3\", \"4\", \"5\", \"6\", \"7\", \"8\", \"9\"]",
        "C8 gateway.services",
    ),
    (
        "\"192.0.2.54\"]",
        "\"192.0.2.54\", \"192.0.2.55\"]",
        "C8 gateway.dns",
    ),
    ("[\"pap\", \"chap\"]", "[]", "C8 gateway.auth"),
    (
        "[\"pap\", \"chap\"]",
        "[\"pap\", \"chap\", \"pap\"]",
        "C8 gateway.auth",
    ),
    ("peers = [", "peers = [] # [", "C8 coa.peers"),
    (
        "peers = [",
        "peers = [\"1.0.0.1\", \"1.0.0.2\", \"1.0.0.3\", \"1.0.0.4\", \"1.0.0.5\", \"1.0.0.6\", \"1.0.0.7\", \"1.0.0.8\", \"1.0.0.9\", \"1.0.1.0\", \"1.0.1.1\", \"1.0.1.2\", \"1.0.1.3\", \"1.0.1.4\", \"1.0.1.5\", ",
        "C8 coa.peers",
    ),
    ("[\"pap\", \"chap\"]", "[\"eap\"]", "C9 gateway.auth"),
    ("[\"pap\", \"chap\"]", "[\"CHAP\"]", "C9 gateway.auth"),
    ("[\"pap\", \"chap\"]", "[\"\"]", "C9 gateway.auth"),
    (
        "[\"pap\", \"chap\"]",
        "[\"chap\", \"eap\"]",
        "C9 gateway.auth",
    ),
    (
        "[\"pap\", \"chap\"]",
        "[\"chap\", \"chap\"]",
        "C9 gateway.auth",
    ),
    (
        "[\"pap\", \"chap\"]",
        "[\"pap\", \"pap\"]",
        "C9 gateway.auth",
    ),
];

#[test]
fn lists_of_texts_have_their_lengths_and_words(rt: HostRuntime) -> Result<(), Fail> {
    assert_rows(&rt, rt.alloc(), FULL, LISTS)?;
    Ok(())
}
