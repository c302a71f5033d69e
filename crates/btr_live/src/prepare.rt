//! What a run takes memory for before it begins: the lines of each lane, and room for all replies.
ghost use Rattle.std.specs.Prelude.{◌≡◌, ℕ, ◌+◌, ◌<◌, ◌≤◌, [], ◌∷◌, ◌++◌, length, map, vec_capacity, IfOk, OnOk};
ghost use Rattle.btr_text.specs.Input.{HaveLanes};
ghost use Rattle.btr_live.specs.OneHistory.{of_lane, lanes_of, lane_lines};
ghost use Rattle.btr_live.specs.Parts.{work_with, list_at, feeds_of, AreLanesOf, HasLists, HasRounds, IsReady};

use crate::lane::Lane;
use crate::lane_lines::LaneLines;
use crate::part::ScriptPart;
use crate::rounds::Rounds;
use btr_text::{Line, LineReply, ScriptLine};
use std::alloc::{AllocError, Global};
use std::sync::Arc;
use std::sync::atomic::AtomicU32;

/// The number of lanes.
pub const LANES: usize = 8;

/// The most parts that run beside each other: the lanes, and the rounds.
pub(crate) const PARTS: usize = LANES + 1;

/// All that a run takes memory for.
pub(crate) struct Ready<F> {
    /// The lane of each line.
    pub(crate) lanes: Vec<u8>,

    /// The lines of each lane from 0 on, and room for their replies.
    pub(crate) works: Vec<LaneLines>,

    /// The rounds, if there are any.
    pub(crate) rounds: Option<Rounds>,

    /// Room for the lanes and the rounds.
    pub(crate) parts: Vec<ScriptPart<F>>,

    /// Room for what feeds the lanes, after they have run.
    pub(crate) feeds: Vec<F>,

    /// Room for a reply to each line.
    pub(crate) replies: Vec<LineReply>,
}

/// Takes all memory for a run of a script, with rounds beside the lanes or without. Each lane takes 1 from `running` when it ends, and
/// rounds begin only while `running` is not 0. It takes time linear in the script. An `Err` means out of memory.
pub(crate) fn prepare<F: Drop>(
    alloc: Global,
    script: Vec<ScriptLine>,
    materialize: bool,
    running: &Arc<AtomicU32>,
) -> Result<Ready<F>, AllocError>
    requires lanes { HaveLanes script.items }
    ensures { IfOk result (IsReady materialize script.items) }
{
    let count = script.len();
    let replies = Vec::with_capacity(alloc, count)?;
    let parts = Vec::with_capacity(alloc, PARTS)?;
    let feeds = Vec::with_capacity(alloc, LANES)?;
    let (lanes, lists) = split_lines(alloc, script)?;
    let works = works_of(alloc, lists, running)?;
    let rounds = rounds_of(count, materialize, running)?;
    Ok(Ready {
        lanes,
        works,
        rounds,
        parts,
        feeds,
        replies,
    })
}

/// Puts together the lanes, each with its lines and with what feeds it, and the rounds, if there are any. There is room for them.
pub(crate) fn assemble<F: Drop>(
    parts: &mut Vec<ScriptPart<F>>,
    feeds: Vec<F>,
    works: Vec<LaneLines>,
    rounds: Option<Rounds>,
)
    requires empty { parts.old.items ≡ [] }
    requires each { length feeds.items ≡ length works.items }
    requires room { length works.items + 1 ≤ vec_capacity parts.old }
    ensures { AreLanesOf feeds.items works.items rounds parts.new.items }
{
    let mut feeds = feeds.into_iter();
    for work in works {
        if let Some(feeding) = feeds.next() {
            parts.push_reserved(ScriptPart::Lane(Lane { feeding, work }));
        }
    }
    if let Some(rounds) = rounds {
        parts.push_reserved(ScriptPart::Rounds(rounds));
    }
}

/// Takes what feeds the lanes out of them. There is room for it.
pub(crate) fn take_feeds<F: Drop>(parts: Vec<ScriptPart<F>>, feeds: &mut Vec<F>)
    requires empty { feeds.old.items ≡ [] }
    requires room { length (feeds_of parts.items) ≤ vec_capacity feeds.old }
    ensures { feeds.new.items ≡ feeds_of parts.items }
{
    for part in parts {
        if let ScriptPart::Lane(lane) = part {
            let Lane { feeding, work: _ } = lane;
            feeds.push_reserved(feeding);
        }
    }
}

/// Puts the lines of each lane into a list of their own. Returns the lane of each line, and the lists.
fn split_lines(
    alloc: Global,
    script: Vec<ScriptLine>,
) -> Result<(Vec<u8>, Vec<Vec<Option<Line>>>), AllocError>
    requires lanes { HaveLanes script.items }
    ensures { IfOk result (λ r. HasLists script.items r.0.items r.1.items) }
{
    let mut lanes = Vec::new(alloc);
    let mut lists = eight_lists(alloc)?;
    for line in script {
        lanes.push(line.lane)?;
        put(&mut lists, line.lane, line.line)?;
    }
    Ok((lanes, lists))
}

/// Makes a list for each lane.
fn eight_lists(alloc: Global) -> Result<Vec<Vec<Option<Line>>>, AllocError>
    ensures count { IfOk result (λ v. length v.items ≡ 8) }
    ensures empty { IfOk result (λ v. (k : ℕ) → list_at v.items k ≡ []) }
{
    let mut lists = Vec::new(alloc);
    for _ in 0..LANES {
        lists.push(Vec::new(alloc))?;
    }
    Ok(lists)
}

/// Adds a line to the list of its lane.
fn put(lists: &mut Vec<Vec<Option<Line>>>, lane: u8, line: Option<Line>) -> Result<(), AllocError>
    requires there { lane < length lists.old.items }
    ensures count { length lists.new.items ≡ length lists.old.items }
    ensures put { OnOk result ((k : ℕ) → list_at lists.new.items k ≡ list_at lists.old.items k ++ of_lane k (lane ∷ []) (line ∷ [])) }
{
    lists[usize::from(lane)].push(line)?;
    Ok(())
}

/// Takes the memory for the replies to the lines of each list.
fn works_of(
    alloc: Global,
    lists: Vec<Vec<Option<Line>>>,
    running: &Arc<AtomicU32>,
) -> Result<Vec<LaneLines>, AllocError>
    ensures { IfOk result (λ w. w.items ≡ map work_with lists.items) }
{
    let mut works = Vec::new(alloc);
    for lines in lists {
        let work = LaneLines::new(alloc, lines, running)?;
        works.push(work)?;
    }
    Ok(works)
}

/// Makes rounds, if they are wanted: at most `count`, while `running` is not 0.
fn rounds_of(
    count: usize,
    materialize: bool,
    running: &Arc<AtomicU32>,
) -> Result<Option<Rounds>, AllocError>
    ensures { IfOk result (HasRounds count materialize) }
{
    if !materialize {
        return Ok(None);
    }
    let lanes = Arc::try_clone(running)?;
    Ok(Some(Rounds { count, lanes }))
}
