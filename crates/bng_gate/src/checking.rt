//! What `check` does: it reads a configuration, and says that it is right or which rule it breaks.
ghost use Rattle.std.specs.Prelude.{IfOk, IfErr, OnOk};
ghost use Rattle.bng_config.specs.Rules.{KeepsRules};
ghost use Rattle.bng_gate.specs.Check.{Checks, IsRight, IsUnchecked};

use crate::texts::Refusal;
use crate::top::{DONE, prepare, refuse};
use bng_plant::{Files, Sink, Wrote};
use std::alloc::Global;

// Reads the configuration of the file of this name, and writes that it is right.
fn approve<F: Files, O: Sink>(
    alloc: Global,
    name: &str,
    files: &mut F,
    out: &mut O,
) -> Result<(), Refusal>
    ensures right { OnOk result (IsRight name.now (F.told files.old) (F.told files.new) (O.told out.old) (O.told out.new)) }
    ensures refused { IfErr result (λ refusal. IsUnchecked name.now (F.told files.old) (F.told files.new) (O.told out.old) (O.told out.new) refusal) }
{
    match prepare(alloc, name, files) {
        Ok(_) => {}
        Err(refusal) => return Err(refusal),
    }
    match out.write(b"ok\n") {
        Wrote::Ok => Ok(()),
        Wrote::Failed => Err(Refusal::OutputFailed),
    }
}

/// Reads the configuration of the file of this name, writes that it is right or which rule it breaks, and answers the status.
#[inline(never)]
pub(crate) fn check<F: Files, O: Sink, X: Sink>(
    alloc: Global,
    name: &str,
    files: &mut F,
    out: &mut O,
    err: &mut X,
) -> u8
    ensures { Checks name.now (F.told files.old) (F.told files.new) (O.told out.old) (O.told out.new) (X.told err.old) (X.told err.new) result }
{
    match approve(alloc, name, files, out) {
        Ok(()) => DONE,
        Err(refusal) => refuse(err, refusal),
    }
}
