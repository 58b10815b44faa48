//! What is written where a run fails.
ghost use Rattle.std.specs.Prelude.{◌≡◌};
ghost use Rattle.std.specs.Fmt.{decimal};
ghost use Rattle.bng_gate.specs.Texts.{refusal_text, refused_text, cannot_open_text, status_of, line_text};

use arrayvec::ArrayString;
use bng_config::{Fault, FaultText, fault_text};
use itoa::Buffer;

/// What could not be opened.
#[derive(Clone, Copy)]
pub enum Unopened {
    Configuration,
    Seed,
    Control,
    Core,
    /// The access port with this number, from 1 on.
    Access(u8),
    Auth,
    Acct,
    Tunnel,
    Coa,
}

/// Why a run did not come to its report.
#[derive(Drop)]
pub enum Refusal {
    /// The words are no command.
    Usage,
    /// The configuration breaks a rule.
    Refused(Fault),
    /// A file or a role could not be opened.
    CannotOpen(Unopened),
    OutOfMemory,
    /// The trace did not take a round.
    TraceFailed,
    /// The report could not be written.
    OutputFailed,
}

/// A line in four parts. The third is a name that is no text of the program.
#[derive(Drop)]
pub struct Line<'a> {
    pub front: &'static str,
    pub middle: ArrayString<64>,
    pub name: &'a [u8],
    pub back: &'static str,
}

/// The status of a run that ends so.
pub fn status(refusal: &Refusal) -> u8
    ensures { result ≡ status_of refusal.now }
{
    match refusal {
        Refusal::Usage => 1,
        Refusal::Refused(_) => 2,
        Refusal::CannotOpen(_) => 3,
        Refusal::OutOfMemory => 4,
        Refusal::TraceFailed => 5,
        Refusal::OutputFailed => 5,
    }
}

/// The line that says so.
pub fn line_of(refusal: &Refusal) -> Line<'_>
    ensures { line_text result ≡ refusal_text refusal.now }
{
    match refusal {
        Refusal::Usage => whole(
            "usage: bng serve CONFIG [--trace FILE] [--rounds N] | check CONFIG | exercise N [--workers W] | audit FILE\n",
        ),
        Refusal::Refused(fault) => refused(fault),
        Refusal::CannotOpen(what) => cannot_open(*what),
        Refusal::OutOfMemory => whole("bng: out of memory\n"),
        Refusal::TraceFailed => whole("bng: trace failed\n"),
        Refusal::OutputFailed => whole("bng: output failed\n"),
    }
}

// What is written of a fault of the configuration.
fn refused(fault: &Fault) -> Line<'_>
    ensures { line_text result ≡ refused_text fault.now }
{
    let FaultText { front, name } = fault_text(fault);
    Line {
        front: "bng: config: ",
        middle: front,
        name,
        back: "\n",
    }
}

fn whole(text: &'static str) -> Line<'static>
    ensures { line_text result ≡ text.now }
{
    Line {
        front: text,
        middle: ArrayString::new(),
        name: &[],
        back: "",
    }
}

// A number in decimal digits.
fn digits(number: u8) -> ArrayString<64>
    ensures { result.bytes ≡ decimal number }
{
    let mut text = ArrayString::new();
    text.push_str(Buffer::new().format(number));
    text
}

// What could not be opened.
fn cannot_open(what: Unopened) -> Line<'static>
    ensures { line_text result ≡ cannot_open_text what }
{
    match what {
        Unopened::Configuration => whole("bng: cannot open configuration\n"),
        Unopened::Seed => whole("bng: cannot open seed\n"),
        Unopened::Control => whole("bng: cannot open control\n"),
        Unopened::Core => whole("bng: cannot open core\n"),
        Unopened::Auth => whole("bng: cannot open auth\n"),
        Unopened::Acct => whole("bng: cannot open acct\n"),
        Unopened::Tunnel => whole("bng: cannot open tunnel\n"),
        Unopened::Coa => whole("bng: cannot open coa\n"),
        Unopened::Access(number) => Line {
            front: "bng: cannot open access ",
            middle: digits(number),
            name: &[],
            back: "\n",
        },
    }
}
