//! The levels of outputs: each output stands above its inputs.
ghost use Rattle.std.specs.Prelude.{◌≡◌, ◌+◌, ◌<◌, ◌≤◌, ◌^◌, List, length, map, slice_index_or, IfOk, OnOk};
ghost use Rattle.btr_hist.specs.declared.entry.Entry.{Entry as EntrySpec};
ghost use Rattle.btr_streams.specs.Snapshot.{IsSnapshotOf};
ghost use Rattle.btr_work.specs.Levels.{AreLevels, next_level};
ghost use Rattle.btr_work.specs.Leveling.{PlacesStream, AreAtMost};

use btr_engine::Snapshot;
use btr_hist::Spec;
use std::alloc::{AllocError, Global};

/// Returns the outputs of a snapshot by levels, from level 1 on. A plain stream has level 0, and an output has one more than the
/// greatest level of its inputs. Each level is in rising order of the numbers of its streams, and no level is empty.
///
/// Each stream is looked up in logarithmic time. An `Err` means out of memory.
pub fn levels(alloc: Global, snapshot: &Snapshot) -> Result<Vec<Vec<u32>>, AllocError>
    ensures { (h : List EntrySpec) → IsSnapshotOf h snapshot.now → IfOk result (λ v. AreLevels h (map (λ l. l.items) v.items)) }
{
    let mut found = Vec::new(alloc);
    let mut groups = Vec::new(alloc);
    for stream in 0..snapshot.streams() {
        let level = next_level(&found, snapshot.spec(stream), groups.len());
        found.push(level)?;
        place(alloc, &mut groups, level, stream)?;
    }
    Ok(groups)
}

/// Returns the level of the next stream, if those before it have these levels, of which none is above `top`.
fn next_level(found: &[usize], kind: Option<Spec>, top: usize) -> usize
    requires below { AreAtMost found.now top }
    requires few { top < 2 ^ 32 }
    ensures level { result ≡ next_level found.now kind }
    ensures top { result ≤ top + 1 }
{
    let Some(spec) = kind else {
        return 0;
    };
    let first = level_at(found, spec.first);
    let second = match spec.second {
        None => 0,
        Some(stream) => level_at(found, stream),
    };
    first.max(second) + 1
}

/// Returns the level of a stream. A stream that is not there has level 0.
fn level_at(found: &[usize], stream: u32) -> usize
    ensures { result ≡ slice_index_or found.now stream 0 }
{
    match found.get(stream as usize) {
        None => 0,
        Some(level) => *level,
    }
}

/// Places a stream at the end of its level, if it is an output. The level is there, or it is the next one.
fn place(
    alloc: Global,
    groups: &mut Vec<Vec<u32>>,
    level: usize,
    stream: u32,
) -> Result<(), AllocError>
    requires { level ≤ length groups.old.items + 1 }
    ensures { OnOk result (PlacesStream level stream (map (λ l. l.items) groups.old.items) (map (λ l. l.items) groups.new.items)) }
{
    if level == 0 {
        return Ok(());
    }
    if level <= groups.len() {
        groups[level - 1].push(stream)?;
        return Ok(());
    }
    let mut group = Vec::new(alloc);
    group.push(stream)?;
    groups.push(group)?;
    Ok(())
}
