//! Which superblock of a device counts.
ghost use Rattle.std.specs.Prelude.{IfOk, ◌≡◌, ◌≢◌, ◌↔◌, ℕ, ◌+◌, ◌*◌, ◌<◌, ◌≤◌, length, min, IsTrue, IsNone, IfSome, MatchOption, OnOk};
ghost use Rattle.btr_disk.specs.Bytes.{Image, Has};
ghost use Rattle.btr_disk.specs.Moments.{WroteNothing};
ghost use Rattle.btr_disk.specs.Causes.{HasCause};
ghost use Rattle.btr_super.specs.declared.superblock.Super.{Super};
ghost use Rattle.btr_super.specs.declared.choosing.ChooseFault.TheVariants.{Fault};
ghost use Rattle.btr_super.specs.Super.{IsSuper};
ghost use Rattle.btr_super.specs.Choose.{AtMostOneCall, IsOpenAt, Spells, IsChosen, HasNoSuper, IsDamagedSuper};
ghost use Rattle.btr_super.specs.Chosen.{IsBlockOf, SideIs, IsLater, ChoiceIs};
ghost use Rattle.btr_disk.specs.Causes.{CausesFault};

use crate::codec::{decode, keeps_table};
use crate::superblock::Super;
use btr_disk::{BLOCK, Disk, Failed, is_open_gate};

/// Why no superblock was chosen.
#[derive(Clone, Copy, PartialEq, Eq)]
pub enum ChooseFault {
    /// Neither superblock has an open gate: there is no store on the device.
    NotAStore,
    /// The body of an open superblock breaks the table, or both have the same number.
    Damaged {
        /// The body's block: 1 or 3.
        block: u64,
    },
    /// The device failed.
    Fault,
}

impl From<Failed> for ChooseFault {
    ghost from_gives = { λ _ e. e ≡ Fault };

    fn from(_: Failed) -> Self {
        ChooseFault::Fault
    }
}

/// Bytes of the two superblocks, gates and bodies.
const SUPERBLOCKS: usize = 4 * BLOCK;

/// One block of the prefix, if the device has it.
fn block_of(prefix: &[u8], block: usize) -> Option<&[u8]>
    requires { block ≤ 3 }
    ensures there { IfSome result (λ bytes. IsBlockOf prefix.now block bytes.now) }
    ensures missing { IsNone result → length prefix.now < 4096 * block + 4096 }
{
    let start = BLOCK * block;
    if start + BLOCK <= prefix.len() {
        Some(&prefix[start..start + BLOCK])
    } else {
        None
    }
}

/// Whether this block is there and is an open gate.
fn has_open_gate(prefix: &[u8], block: usize, size: u64) -> bool
    requires block { block ≤ 3 }
    requires prefix { length prefix.now ≡ 4096 * min 4 size }
    ensures { (image : Image) → Has image 0 prefix.now → IsTrue result ↔ IsOpenAt size image block }
{
    match block_of(prefix, block) {
        Some(bytes) => is_open_gate(bytes),
        None => false,
    }
}

/// The superblock of this side that this block spells, if it is there.
fn spelled(prefix: &[u8], block: usize, side: u8, size: u64) -> Option<Super>
    requires block { block ≤ 3 }
    requires side { side ≤ 1 }
    requires prefix { length prefix.now ≡ 4096 * min 4 size }
    ensures { (image : Image) → Has image 0 prefix.now
        → MatchOption result ((s : Super) → s.side ≡ side → Spells size image block s → ⊥)
        (λ s. (s.side ≡ side) × Spells size image block s) }
{
    let found = decode(block_of(prefix, block)?, side)?;
    if keeps_table(&found, size) {
        Some(found)
    } else {
        None
    }
}

/// The superblock of this side, if its gate is open.
fn open_super(prefix: &[u8], side: u8, size: u64) -> Result<Option<Super>, ChooseFault>
    requires side { side ≤ 1 }
    requires prefix { length prefix.now ≡ 4096 * min 4 size }
    ensures { (image : Image) → Has image 0 prefix.now → SideIs size image side result }
{
    let gate = 2 * side as usize;
    if !has_open_gate(prefix, gate, size) {
        return Ok(None);
    }
    match spelled(prefix, gate + 1, side, size) {
        Some(found) => Ok(Some(found)),
        None => Err(ChooseFault::Damaged {
            block: 2 * side as u64 + 1,
        }),
    }
}

/// The one of both superblocks that has the greater number.
fn later(first: Super, second: Super) -> Result<Super, ChooseFault>
    ensures { IsLater first second result }
{
    if first.seq > second.seq {
        Ok(first)
    } else if first.seq < second.seq {
        Ok(second)
    } else {
        Err(ChooseFault::Damaged { block: 3 })
    }
}

/// The superblock that counts on a device of `size` blocks, by its first blocks.
fn choose_in(prefix: &[u8], size: u64) -> Result<Super, ChooseFault>
    requires { length prefix.now ≡ 4096 * min 4 size }
    ensures { (image : Image) → Has image 0 prefix.now → ChoiceIs size image result }
{
    let first = open_super(prefix, 0, size)?;
    let second = open_super(prefix, 1, size)?;
    match (first, second) {
        (None, None) => Err(ChooseFault::NotAStore),
        (Some(only), None) | (None, Some(only)) => Ok(only),
        (Some(first), Some(second)) => later(first, second),
    }
}

/// Reads the prefix, which has as many of the first four blocks as the device has.
fn read_prefix<D: Disk>(device: &mut D, prefix: &mut [u8]) -> Result<(), Failed>
    requires { length prefix.old ≡ 4096 * min 4 (D.size device.old) }
    ensures size { D.size device.new ≡ D.size device.old }
    ensures calls { AtMostOneCall (D.calls device.old) (D.calls device.new) }
    ensures cause { HasCause (D.faults device.old) (D.faults device.new) result }
    ensures bytes { D.is_observable → OnOk result (Has (D.contents device.old) 0 prefix.new) }
    ensures nothing { D.is_observable → WroteNothing D.calls D.contents D.images_now D.images_since device.old device.new }
{
    if prefix.is_empty() {
        return Ok(());
    }
    device.read(0, prefix)
}

/// The superblock that counts: of those with an open gate the one with the greater number.
///
/// If the body of an open gate breaks the table, the result is `Damaged` with the first such block, and the
/// other superblock does not count. If both have the same number, the result is `Damaged` too. If neither
/// gate is open, there is no store on the device.
///
/// It reads blocks 0 to 3 in one call, or as many of them as the device has. A gate that the device does not
/// have counts as closed, and a body that it does not have spells nothing. It writes nothing and allocates no
/// memory.
pub fn choose<D: Disk>(device: &mut D) -> Result<Super, ChooseFault>
    ensures size { D.size device.new ≡ D.size device.old }
    ensures calls { AtMostOneCall (D.calls device.old) (D.calls device.new) }
    ensures cause { CausesFault (D.faults device.old) (D.faults device.new) (result ≡ Err ChooseFault.Fault) }
    ensures table { IfOk result (IsSuper (D.size device.old)) }
    ensures chosen { D.is_observable → result ≢ Err ChooseFault.Fault
        → (s : Super) → (result ≡ Ok s) ↔ IsChosen (D.size device.old) (D.contents device.old) s }
    ensures not_a_store { D.is_observable → result ≢ Err ChooseFault.Fault
        → (result ≡ Err ChooseFault.NotAStore) ↔ HasNoSuper (D.size device.old) (D.contents device.old) }
    ensures damaged { D.is_observable → result ≢ Err ChooseFault.Fault
        → (block : ℕ) → (result ≡ Err (ChooseFault.Damaged block)) ↔ IsDamagedSuper (D.size device.old) (D.contents device.old) block }
    ensures nothing { D.is_observable → WroteNothing D.calls D.contents D.images_now D.images_since device.old device.new }
{
    let size = device.blocks();
    let count = size.min(4);
    let mut bytes = [0; SUPERBLOCKS];
    let prefix = &mut bytes[..BLOCK * count as usize];
    read_prefix(device, prefix)?;
    choose_in(prefix, size)
}
