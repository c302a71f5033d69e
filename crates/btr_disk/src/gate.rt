//! Gates: a gate is the block that decides whether the body after it counts, and `publish` opens one.
ghost use Rattle.std.specs.Prelude.{◌≡◌, ◌↔◌, ◌≤◌, ◌*◌, ℕ, ◌++◌, length, take, replicate, IsTrue};
ghost use Rattle.btr_disk.specs.Causes.{CountsCalls, HasCause, Rose};
ghost use Rattle.btr_disk.specs.Gate.{mark, gate_block};
ghost use Rattle.btr_disk.specs.Publish.{HasPlaces, Publishes};

use crate::{BLOCK, BlockSource, Disk, Failed, Parts};

/// The first eight bytes of an open gate: ASCII `BTR-GATE`.
pub const GATE_MARK: [u8; 8] = *b"BTR-GATE";

/// Whether a block is an open gate: it begins with the mark. Its other bytes do not matter.
pub fn is_open_gate(block: &[u8]) -> bool
    requires { 8 ≤ length block.now }
    ensures { IsTrue result ↔ (take 8 block.now ≡ mark) }
{
    &block[..8] == GATE_MARK.as_slice()
}

/// An open gate: the mark, and then zeros.
#[tactic(auto, unfolding(crate::specs::Gate::zeros))]
pub fn open_gate() -> [u8; BLOCK]
    ensures { result ≡ gate_block }
{
    let mut block = [0; BLOCK];
    block[..8].copy_from_slice(&GATE_MARK);
    block
}

/// Makes the body, which is `prefix` and then the blocks of `rest`, durable at block `first`, and then writes `gate`, one block, at block
/// `at`, durably.
///
/// The caller passes whole blocks inside the device, and a gate outside the body. It makes four calls, a
/// write and a sync for each of the two, and stops at the first that fails.
///
/// A crash before the gate is written leaves all blocks but the body's as they were, also the gate's
/// old block. A crash after that leaves the whole body. After `Ok` both are durable. After `Failed` the
/// device is as a crash at that moment might leave it.
pub fn publish<D: Disk, S: BlockSource>(
    device: &mut D,
    first: u64,
    prefix: &Parts,
    rest: &S,
    at: u64,
    gate: &[u8],
) -> Result<(), Failed>
    requires able { S.can_work }
    requires places { HasPlaces (D.size device.old) first (prefix.now ++ S.bytes rest.now) at gate.now }
    ensures size { D.size device.new ≡ D.size device.old }
    ensures called { Rose (D.calls device.old) (D.calls device.new) }
    ensures calls { CountsCalls 4 (D.calls device.old) (D.calls device.new) result }
    ensures cause { HasCause (D.faults device.old) (D.faults device.new) result }
    ensures publishes { D.is_observable
        → Publishes D.calls D.contents D.images_now D.images_since (4096 * first) (prefix.now ++ S.bytes rest.now) (4096 * at) gate.now
        device.old device.new result }
{
    device.write_parts(first, prefix, rest)?;
    device.sync()?;
    device.write(at, gate)?;
    device.sync()
}
