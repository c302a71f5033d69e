//! What commands share: they read an input, open a store, and say how they end.
ghost use Rattle.std.specs.Prelude.{◌≡◌, ◌+◌, Err, IfOk, IfErr};
ghost use Rattle.std.specs.declared.alloc.AllocError.{AllocError as AllocErrorSpec};
ghost use Rattle.btr_io.specs.Bytes.{Gives};
ghost use Rattle.btr_open.specs.Opening.{IsNotOpened};
ghost use Rattle.btr_top.specs.Command.{HasRead, InputCause, IsKept, OpeningCause};
ghost use Rattle.btr_top.specs.declared.command.TheConstants.{MAX_INPUT};
ghost use Rattle.btr_top.specs.Work.{ending_of, unsaid};

use crate::ending::Ending;
use crate::remains::RunRemains;
use btr_disk::Disk;
use btr_io::{ReadAllFault, Source, read_all};
use btr_open::{OpenCause, OpenFault};
use btr_store::{Transcript, Worked};
use std::alloc::{AllocError, Global};

/// The most bytes of input that are taken: `2^28`.
pub const MAX_INPUT: u64 = 268435456;

/// How a command ended.
#[derive(Drop)]
pub(crate) struct CommandResult<D> {
    pub(crate) ending: Ending,

    /// The device, as the command's calls left it.
    pub(crate) disk: D,

    /// What the command leaves in memory.
    pub(crate) remains: RunRemains,
}

/// Reads the source to its end, and returns its bytes. It reads at most one byte more than [`MAX_INPUT`]. An `Err` is how the command
/// ends then.
pub(crate) fn read_input<S: Source>(alloc: Global, source: &mut S) -> Result<Vec<u8>, Ending>
    ensures input { S.is_observable → Gives (MAX_INPUT + 1) (S.left source.old) (S.left source.new) }
    ensures read { IfOk result (λ bytes. HasRead ⟦<S as Source>⟧ bytes.items source.old source.new) }
    ensures cause { IfErr result (λ e. InputCause ⟦<S as Source>⟧ source.old source.new e) }
{
    match read_all(alloc, source, MAX_INPUT) {
        Ok(input) => Ok(input),
        Err(ReadAllFault::Fault) => Err(Ending::NoSource),
        Err(ReadAllFault::TooLong) => Err(Ending::TooLong),
        Err(ReadAllFault::Want) => Err(Ending::OutOfMemory),
    }
}

/// Returns how a command ends whose store was not opened.
pub(crate) fn open_refusal<D: Disk>(fault: OpenFault<D>) -> CommandResult<D>
    ensures size { (old : D) → IsNotOpened ⟦<D as Disk>⟧ old fault → D.size result.disk ≡ D.size old }
    ensures kept { (old : D) → IsNotOpened ⟦<D as Disk>⟧ old fault → IsKept ⟦<D as Disk>⟧ old result.disk }
    ensures cause { (old : D) → IsNotOpened ⟦<D as Disk>⟧ old fault → OpeningCause ⟦<D as Disk>⟧ old result.disk result.ending }
{
    let ending = match fault.cause {
        OpenCause::NotAStore => Ending::NoStore,
        OpenCause::Damaged { block } => Ending::Damaged { block },
        OpenCause::Fault => Ending::NoDevice,
        OpenCause::Want => Ending::OutOfMemory,
    };
    CommandResult {
        ending,
        disk: fault.disk,
        remains: RunRemains::Nothing,
    }
}

/// Returns how a command ends that did its work. If there was no memory for its lines, and the device failed, it ends by the failure.
pub(crate) fn work_result<D>(worked: Worked<D>) -> CommandResult<D>
    ensures disk { result.disk ≡ worked.disk }
    ensures ending { result.ending ≡ ending_of worked.said worked.failed }
{
    let Worked {
        said,
        failed,
        disk,
        remains,
    } = worked;
    CommandResult {
        ending: ending_of(said, failed),
        disk,
        remains: RunRemains::Store(remains),
    }
}

/// Returns how a command ends that did its work and says this of it.
pub(crate) fn ending_of(said: Result<Transcript, AllocError>, failed: bool) -> Ending
    ensures { result ≡ ending_of said failed }
{
    match said {
        Ok(transcript) => Ending::Replied(transcript),
        Err(_) => unsaid(failed),
    }
}

/// Returns how a command ends whose work was done, but for whose lines there was no memory.
pub(crate) fn unsaid(failed: bool) -> Ending
    ensures ending { result ≡ unsaid failed }
    ensures of_error { (error : AllocErrorSpec) → result ≡ ending_of (Err error) failed }
{
    if failed {
        Ending::NoDevice
    } else {
        Ending::OutOfMemory
    }
}
