//! The outputs of a sample: one for each of its streams.
ghost use Rattle.std.specs.Prelude.{◌≡◌, ℕ, ◌+◌, ◌<◌, ◌^◌, List, length, IfOk};
ghost use Rattle.btr_hall.specs.Session.{IsAlone};
ghost use Rattle.btr_jobs.specs.Jobs.{IsAt, Does};
ghost use Rattle.btr_store.specs.declared.define.DefinedOutput.{DefinedOutput as OutputSpec};
ghost use Rattle.btr_store.specs.Define.{Defines, DefinesAll, output_id, mean_of, refusal_of};

use btr_disk::Disk;
use btr_engine::{Receipt, StepFault};
use btr_hall::{Hall, Session};
use btr_hist::{Entry, Kernel, Spec};
use btr_jobs::System;
use btr_live::reason_of_step;
use btr_text::Reason;
use std::alloc::AllocError;
use std::marker::Sync;
use std::sync::Wait;
use std::thread::Threads;

/// An output of a sample, and why it was refused, if it was.
#[derive(Clone, Copy)]
pub(crate) struct DefinedOutput {
    pub(crate) id: u128,
    pub(crate) refused: Option<Reason>,
}

/// Defines an output for each stream of a sample, in order. An `Err` means out of memory; some were defined then.
pub(crate) fn define_outputs<R: Threads + Wait + Sync, D: Disk>(
    system: System<'_, R>,
    hall: &Hall<D>,
    session: &mut Session<D>,
    streams: u32,
) -> Result<Vec<DefinedOutput>, AllocError>
    requires at { IsAt hall.now session.old }
    requires alone { IsAlone session.old }
    ensures at { IsAt hall.now session.new }
    ensures alone { IsAlone session.new }
    ensures each { IfOk result (λ outputs. length outputs.items ≡ streams) }
    ensures does { Does hall.now session.old session.new
        (λ start log low own. DefinesAll streams start log low result own) }
{
    let mut outputs = Vec::new(system.alloc);
    for stream in 0..streams {
        outputs.push(define(system, hall, session, stream))?;
    }
    Ok(outputs)
}

/// Defines the output of a stream of a sample.
fn define<R: Threads + Wait + Sync, D: Disk>(
    system: System<'_, R>,
    hall: &Hall<D>,
    session: &mut Session<D>,
    stream: u32,
) -> DefinedOutput
    requires at { IsAt hall.now session.old }
    requires alone { IsAlone session.old }
    ensures at { IsAt hall.now session.new }
    ensures alone { IsAlone session.new }
    ensures does { Does hall.now session.old session.new
        (λ start log low own. Defines start log low stream result own log.history) }
{
    let id = output_id(stream);
    match session.find(system.rt, hall, u128::from(stream) + 1) {
        Some(found) => {
            let entry = Entry::Define {
                id,
                spec: mean_of(found.stream),
            };
            let refused = refusal_of(session.commit(system.rt, system.alloc, hall, &entry));
            DefinedOutput { id, refused }
        }
        None => DefinedOutput {
            id,
            refused: Some(Reason::Stream),
        },
    }
}

/// Returns the id of the output of a stream of a sample.
fn output_id(stream: u32) -> u128
    ensures { result ≡ output_id stream }
{
    (1 << 64) + u128::from(stream) + 1
}

/// Returns the spec of an output of a sample, whose input has this number: the mean of the last 1,000 ns.
fn mean_of(input: u32) -> Spec
    ensures { result ≡ mean_of input }
{
    Spec {
        kernel: Kernel::Mean,
        lead: 1000,
        grain: 0,
        first: input,
        second: None,
    }
}

/// Returns why an entry was refused, if it was. Its rejection names no output, since the entry is no retirement.
fn refusal_of(done: Result<Receipt, StepFault>) -> Option<Reason>
    ensures { result ≡ refusal_of done }
{
    match done {
        Ok(_) => None,
        Err(fault) => Some(reason_of_step(fault, 0)),
    }
}
