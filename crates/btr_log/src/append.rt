//! The append: one more body at the end of the log, durable before its gate is open.
ghost use Rattle.std.specs.Prelude.{◌++◌, ◌∷◌, [], List, ℕ, IfErr, OnOk};
ghost use Rattle.btr_log.specs.Log.{IsLogAtRest, LogLeaves, KeepsBounds};
ghost use Rattle.btr_log.specs.Append.{body_in_run, IsAppendRun, IsAppendMoment, RefusesAppend, AppendCause, IsAppended};

use crate::Log;
use btr_disk::{BLOCK, BlockSource, Disk, Parts, open_gate, publish};

/// Why a body was not appended.
#[derive(Clone, Copy, PartialEq, Eq)]
pub enum AppendFault {
    /// The body needs more blocks than are left. The log is as before.
    Full { need: u64, left: u64 },

    /// The device failed. The log is stopped. A crash leaves the log with the body or without it.
    Fault,

    /// The log was stopped already, with this many extents acknowledged. It is as before.
    Stopped { extents: u64 },
}

impl<D: Disk> Log<D> {
    /// Appends a body. After `Ok` it is durable, and no crash takes it away.
    ///
    /// The caller passes a run: the body, which begins with its head, and then one block of zeros. The run is `prefix`, and then the
    /// blocks of `rest`.
    ///
    /// `Stopped` is returned exactly if the log is stopped. `Full` is returned exactly if the log is not
    /// stopped and the body's blocks and one more are more than the room. Neither calls the device. A
    /// crash at any moment leaves the log as it was or with this body.
    ///
    /// It makes four calls of the device, a write and a sync for the run and then for the gate, or fewer
    /// if one of them fails. It allocates no memory itself.
    pub fn append<S: BlockSource>(&mut self, prefix: &Parts, rest: &S) -> Result<(), AppendFault>
        requires able { S.can_work }
        requires run { IsAppendRun (prefix.now ++ S.bytes rest.now) }
        ensures refused { RefusesAppend self.old (prefix.now ++ S.bytes rest.now) result }
        ensures cause { IfErr result (AppendCause self.old self.new (prefix.now ++ S.bytes rest.now)) }
        ensures kept { KeepsBounds self.old self.new }
        ensures appended { OnOk result (IsAppended self.old self.new (prefix.now ++ S.bytes rest.now)) }
        // Given that the log was at rest with these bodies.
        ensures at_rest { D.is_observable → (bodies : List (List ℕ)) → IsLogAtRest self.old bodies
            → OnOk result (IsLogAtRest self.new (bodies ++ body_in_run (prefix.now ++ S.bytes rest.now) ∷ [])) }
        ensures moments { D.is_observable → (bodies : List (List ℕ)) → IsLogAtRest self.old bodies
            → LogLeaves self.old self.new (IsAppendMoment self.old bodies (prefix.now ++ S.bytes rest.now)) }
    {
        if self.stopped {
            return Err(AppendFault::Stopped {
                extents: self.extents,
            });
        }
        let need = (prefix.len() / BLOCK) as u64 + rest.blocks() as u64;
        let left = self.room();
        if need > left {
            return Err(AppendFault::Full { need, left });
        }
        let written = publish(
            &mut self.disk,
            self.tail + 1,
            prefix,
            rest,
            self.tail,
            &open_gate(),
        );
        if written.is_err() {
            self.stopped = true;
            return Err(AppendFault::Fault);
        }
        self.tail += need;
        self.extents += 1;
        Ok(())
    }
}
