//! A script runs: its lanes beside each other, rounds beside them, and a last round after them.
ghost use Rattle.std.specs.Prelude.{◌≡◌, ◌≤◌, [], length, map, vec_capacity, IfOk, IfErr, OnErr};
ghost use Rattle.std.specs.List.{AllByRecursion};
ghost use Rattle.std.specs.Option.{is_some};
ghost use Rattle.btr_base.specs.declared.limits.TheConstants.{MAX_COMMIT_POINTS};
ghost use Rattle.btr_text.specs.Input.{HaveLanes};
ghost use Rattle.btr_jobs.specs.Jobs.{IsAt, AllKeep, Does};
ghost use Rattle.btr_live.specs.Lanes.{in_own_feeds};
ghost use Rattle.btr_live.specs.SharedLanes.{RunsShared, shared_feeds};
ghost use Rattle.btr_live.specs.OneHistory.{RunsFed};
ghost use Rattle.btr_live.specs.Live.{HasReplyEach, LastRound, RunsLive};
ghost use Rattle.btr_live.specs.Parts.{IsReady};

use crate::feeding::Feeding;
use crate::order::in_order;
use crate::own_feeds::OwnFeeds;
use crate::prepare::{LANES, PARTS, Ready, assemble, prepare, take_feeds};
use crate::shared_feeds::SharedFeeds;
use btr_disk::Disk;
use btr_hall::{Groups, Hall, Session};
use btr_jobs::{NoPace, Pace, System, run_jobs};
use btr_text::{LineReply, ScriptLine};
use btr_work::{Report, bring_current};
use std::alloc::{AllocError, Global};
use std::marker::{Send, Sync};
use std::sync::atomic::AtomicU32;
use std::sync::{Arc, Wait};
use std::thread::Threads;

/// What a run of a script leaves.
#[derive(Drop)]
pub struct LiveReport {
    /// A reply to each line, in the order of the script.
    pub replies: Vec<LineReply>,

    /// What became of each output in the last round, if there was one. An `Err` means that there was no memory to begin it.
    pub last: Option<Result<Report, AllocError>>,
}

/// Runs a script. The lines of each lane run in order, in a session of their own, with feeds of their own, which are due with `batch`
/// points; points that wait at the end are dropped. The lanes run beside each other. A line is admitted to the history of one turn, its
/// entry is committed in another, and a question is answered after its turn.
///
/// With `materialize` rounds run beside the lanes, one after another in one more session, at most as many as the script has lines. None
/// begins after all lanes have ended, but then one last round runs. A round brings each output up to date once.
///
/// The turns of `pace` are the lanes, 0 to 7, and 8 for the rounds. No thread is started if all lines are of one lane and no rounds are
/// wanted.
///
/// Each line has a reply, at whatever hall the lines run, and there was a last round exactly if one was wanted. What the replies say is
/// said if the hall was opened on a history.
///
/// Memory for the lines and the replies is taken before anything runs: after an `Err`, which means out of memory, nothing was done. If
/// memory runs out later, the reply to the line says so.
///
/// If the session was the only one of its hall, it is so again. It takes time linear in the script beside what its lines and rounds take.
pub fn lanes<R: Threads + Wait + Sync, D: Disk + Send, P: Pace + Sync>(
    system: System<'_, R>,
    hall: &Hall<D>,
    session: &mut Session<D>,
    script: Vec<ScriptLine>,
    batch: u32,
    materialize: bool,
    pace: &P,
) -> Result<LiveReport, AllocError>
    requires at { IsAt hall.now session.old }
    requires lanes { HaveLanes script.items }
    requires batch { (1 ≤ batch) × (batch ≤ MAX_COMMIT_POINTS) }
    ensures at { IsAt hall.now session.new }
    ensures refused { OnErr result (session.new ≡ session.old) }
    ensures each { IfOk result (HasReplyEach materialize script.items) }
    ensures runs { IfOk result (λ report. Does hall.now session.old session.new
        (λ start log low own. RunsLive (in_own_feeds batch) materialize start log low script.items report own)) }
{
    let feeds = eight_feeds(system.alloc, batch)?;
    let beside = Beside { materialize, pace };
    match run_parts(system, hall, session, script, feeds, beside) {
        Ok((replies, _)) => {
            let last = last_round(system, hall, session, materialize);
            Ok(LiveReport { replies, last })
        }
        Err((_, error)) => Err(error),
    }
}

/// What runs beside the lanes of a script, and who learns of it.
#[derive(Drop)]
pub struct Beside<'a, P> {
    /// Whether rounds of the materializer run.
    pub materialize: bool,

    /// Learns when each lane and the rounds begin and end.
    pub pace: &'a P,
}

/// Runs a script as [`lanes`] does, but for its lines of feeds, which use shared buffers: `groups` has those of each lane, from lane 0 to
/// 7, as that lane uses them. `feed` puts points into the buffer of the stream, which commits them with those of other lanes in one
/// entry; `flush` commits what waits there; no lane can discard what waits. There is no last round: the caller makes it once the groups
/// are closed, so that it sees all that they committed.
///
/// Returns a reply to each line, in the order of the script, and the groups. What the replies say is said if the hall was opened on a
/// history. After an `Err`, which means out of memory, nothing was done, and it returns the groups.
pub fn shared_lanes<
    R: Threads + Wait + Sync,
    D: Disk + Send,
    G: Groups + Send + Drop,
    P: Pace + Sync,
>(
    system: System<'_, R>,
    hall: &Hall<D>,
    session: &mut Session<D>,
    script: Vec<ScriptLine>,
    groups: Vec<G>,
    beside: Beside<'_, P>,
) -> Result<(Vec<LineReply>, Vec<G>), (Vec<G>, AllocError)>
    requires at { IsAt hall.now session.old }
    requires script { HaveLanes script.items × (length groups.items ≡ 8) }
    ensures at { IsAt hall.now session.new }
    ensures refused { OnErr result (session.new ≡ session.old) }
    ensures back { IfErr result (λ r. r.0.items ≡ groups.items) }
    ensures later { IfOk result (λ r. AllKeep G.later groups.items r.1.items) }
    ensures each { IfOk result (λ r. length r.0.items ≡ length script.items) }
    ensures runs { IfOk result (λ r. Does hall.now session.old session.new
        (RunsShared ⟦<G as Groups>⟧ groups.items r.1.items beside.entry.materialize script.items r.0.items)) }
{
    let (feeds, room) = match feeds_room(system.alloc) {
        Ok(room) => room,
        Err(error) => return Err((groups, error)),
    };
    let feeds = wrap(groups, feeds);
    match run_parts(system, hall, session, script, feeds, beside) {
        Ok((replies, feeds)) => Ok((replies, unwrap(feeds, room))),
        Err((feeds, error)) => Err((unwrap(feeds, room), error)),
    }
}

/// Takes the memory for the feeds of the lanes, and for their groups.
fn feeds_room<G: Drop>(alloc: Global) -> Result<(Vec<SharedFeeds<G>>, Vec<G>), AllocError>
    ensures empty { IfOk result (λ r. (r.0.items ≡ []) × (r.1.items ≡ [])) }
    ensures room { IfOk result (λ r. (8 ≤ vec_capacity r.0) × (8 ≤ vec_capacity r.1)) }
{
    let feeds = Vec::with_capacity(alloc, LANES)?;
    let groups = Vec::with_capacity(alloc, LANES)?;
    Ok((feeds, groups))
}

/// Makes feeds of groups. There is room for them.
fn wrap<G: Drop>(groups: Vec<G>, feeds: Vec<SharedFeeds<G>>) -> Vec<SharedFeeds<G>>
    requires empty { feeds.items ≡ [] }
    requires room { length groups.items ≤ vec_capacity feeds }
    ensures { result.items ≡ map shared_feeds groups.items }
{
    let mut feeds = feeds;
    for groups in groups {
        feeds.push_reserved(SharedFeeds { groups });
    }
    feeds
}

/// Takes the groups out of feeds. There is room for them.
fn unwrap<G: Drop>(feeds: Vec<SharedFeeds<G>>, groups: Vec<G>) -> Vec<G>
    requires empty { groups.items ≡ [] }
    requires room { length feeds.items ≤ vec_capacity groups }
    ensures { map shared_feeds result.items ≡ feeds.items }
{
    let mut all = groups;
    for feed in feeds {
        let SharedFeeds { groups } = feed;
        all.push_reserved(groups);
    }
    all
}

/// Runs the lanes of a script, from lane 0 to 7, each with its feeds, and the rounds beside them. Returns a reply to each line, in the
/// order of the script, and the feeds. After an `Err`, which means out of memory, nothing was done.
fn run_parts<R: Threads + Wait + Sync, D: Disk + Send, F: Feeding + Send + Drop, P: Pace + Sync>(
    system: System<'_, R>,
    hall: &Hall<D>,
    session: &mut Session<D>,
    script: Vec<ScriptLine>,
    feeds: Vec<F>,
    beside: Beside<'_, P>,
) -> Result<(Vec<LineReply>, Vec<F>), (Vec<F>, AllocError)>
    requires at { IsAt hall.now session.old }
    requires script { HaveLanes script.items × (length feeds.items ≡ 8) }
    ensures at { IsAt hall.now session.new }
    ensures refused { OnErr result (session.new ≡ session.old) }
    ensures back { IfErr result (λ r. r.0.items ≡ feeds.items) }
    ensures keeps { IfOk result (λ r. AllKeep F.keeps feeds.items r.1.items) }
    ensures each { IfOk result (λ r. length r.0.items ≡ length script.items) }
    ensures runs { IfOk result (λ r. Does hall.now session.old session.new
        (RunsFed F.ran feeds.items r.1.items beside.entry.materialize script.items r.0.items)) }
{
    let Beside { materialize, pace } = beside;
    let ready = match ready_for(system.alloc, script, materialize) {
        Ok(ready) => ready,
        Err(error) => return Err((feeds, error)),
    };
    let Ready {
        lanes,
        works,
        rounds,
        mut parts,
        feeds: mut back,
        mut replies,
    } = ready;
    assemble(&mut parts, feeds, works, rounds);
    let lanes = lanes.as_slice();
    let workers = workers_for(lanes, materialize);
    let all = parts.as_mut_slice();
    run_jobs(system, hall, session, workers, 0, all, pace);
    in_order(lanes, all, &mut replies);
    take_feeds(parts, &mut back);
    Ok((replies, back))
}

/// Takes all memory for a run of a script.
fn ready_for<F: Drop>(
    alloc: Global,
    script: Vec<ScriptLine>,
    materialize: bool,
) -> Result<Ready<F>, AllocError>
    requires lanes { HaveLanes script.items }
    ensures { IfOk result (IsReady materialize script.items) }
{
    let running = Arc::new(alloc, AtomicU32::new(LANES as u32))?;
    prepare(alloc, script, materialize, &running)
}

/// Makes feeds of each lane alone, which are due with `batch` points.
fn eight_feeds(alloc: Global, batch: u32) -> Result<Vec<OwnFeeds>, AllocError>
    requires batch { (1 ≤ batch) × (batch ≤ MAX_COMMIT_POINTS) }
    ensures count { IfOk result (λ v. length v.items ≡ 8) }
    ensures batch { IfOk result (λ v. AllByRecursion (λ f. f.batch ≡ batch) v.items) }
{
    let mut feeds = Vec::new(alloc);
    for _ in 0..LANES {
        feeds.push(OwnFeeds { batch })?;
    }
    Ok(feeds)
}

/// Returns how many workers run the parts. It is one, which starts no thread, if all lines are of one lane and no rounds run beside it.
fn workers_for(lanes: &[u8], materialize: bool) -> u8 {
    if materialize || are_of_many(lanes) {
        PARTS as u8
    } else {
        1
    }
}

/// Whether the lines, which have these lanes, are of more than one.
fn are_of_many(lanes: &[u8]) -> bool {
    match lanes.first() {
        None => false,
        Some(first) => lanes.iter().any(|lane| lane != first),
    }
}

/// Brings each output up to date once more, if that is wanted. The outputs of a level are shared among workers.
pub fn last_round<R: Threads + Wait + Sync, D: Disk + Send>(
    system: System<'_, R>,
    hall: &Hall<D>,
    session: &mut Session<D>,
    materialize: bool,
) -> Option<Result<Report, AllocError>>
    requires at { IsAt hall.now session.old }
    ensures at { IsAt hall.now session.new }
    ensures wanted { is_some result ≡ materialize }
    ensures last { Does hall.now session.old session.new (λ start log low own. LastRound start log low materialize result own) }
{
    if !materialize {
        return None;
    }
    Some(bring_current(system, hall, session, PARTS as u8, &NoPace))
}
