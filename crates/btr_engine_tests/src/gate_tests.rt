//! Passes in one thread and in many, over a state that counts.
ghost use Rattle.std.specs.Prelude.{◌≡◌, ◌≢◌, ℕ, ◌+◌, ◌^◌, ◌<◌, ◌≤◌, Bool, true, false, List, [], ◌∷◌, length, Option, None, Some, IfSome};
ghost use Rattle.std.specs.Thread.{IsSync};
ghost use Rattle.btr_gate.specs.Shares.{on_path};
ghost use Rattle.btr_gate.specs.Views.{with_entry};
ghost use Rattle.btr_gate.specs.Gates.{IsPassOf, IsFree, view};

use crate::fixture::no_wrong;
use btr_gate::{Chronicle, Gate, Pass, Turn};
use std::alloc::{AllocError, Global};
use std::snapshot::Snapshot;
use std::sync::Wait;
use std::test::Fail;
use std::thread::{Threads, join};

/// How many entries were added, in all and by each of eight threads.
#[derive(Drop)]
struct Tally {
    count: u64,
    by: [u64; 8],
}

/// An entry: the thread that added it, and the counts before it.
#[derive(Drop)]
struct Mark {
    by: usize,
    before: Snapshot<[u64; 8]>,
}

impl Chronicle<Mark, ()> for Tally {
    ghost use Rattle.std.specs.Prelude.{◌≡◌, ◌^◌, ◌<◌, false, true, length};

    ghost is_state_of = { λ t l _. (t.count ≡ length l) × (length l < 2 ^ 63) };

    ghost lent = { λ _. false };

    ghost frozen = { true };

    ghost lent_after = { λ _. false };

    fn entries(&self) -> u64 {
        self.count
    }

    ghost bounded = { λ _ _ _ h. h.1 };

    ghost lent_is = { λ _ _ _ _ _ i. false };
}

type Marks = Gate<Tally, Mark, ()>;

type Marker = Pass<Tally, Mark, ()>;

/// Returns a gate over a tally that counts nothing yet.
fn begun(alloc: Global) -> Option<(Marks, Marker)>
    ensures { IfSome result (λ r. IsFree r.0 r.1 × ((view r.1).share ≡ [] ∷ [])) }
{
    let tally = Tally {
        count: 0,
        by: [0; 8],
    };
    Gate::begin(alloc, tally).ok()
}

/// Counts one more entry in a turn, if there is room.
fn add_to(turn: &mut Turn<Tally, Mark>, by: usize)
    requires { turn.old.added ≡ None }
    ensures count { (l : List Mark) → turn.old.state.count ≡ length l → turn.new.state.count ≡ length (with_entry l turn.new.added) }
    ensures few { (l : List Mark) → turn.old.state.count ≡ length l → length l < 2 ^ 63 → length (with_entry l turn.new.added) < 2 ^ 63 }
{
    if turn.state.count >= 1 << 62 || by >= 8 {
        return;
    }
    let before = Snapshot::of(&turn.state.by);
    turn.state.count += 1;
    turn.state.by[by] = turn.state.by[by].wrapping_add(1);
    turn.added = Some(Mark { by, before });
}

/// Adds entries in as many turns.
fn add<R: Wait>(rt: &R, gate: &Marks, pass: Marker, by: usize, count: u64) -> Marker
    requires { IsFree gate.now pass }
    ensures free { IsFree gate.now result }
    ensures share { (view result).share ≡ (view pass).share }
{
    let mut pass = pass;
    for _ in 0..count {
        let mut turn = gate.enter(rt, &mut pass);
        add_to(&mut turn, by);
        gate.leave(&mut pass, turn);
    }
    pass
}

/// Adds a thousand entries in each of two threads.
fn add_in_two<R: Threads + Wait + Sync>(rt: &R, gate: &Marks, pass: Marker, first: usize) -> Marker
    requires { IsFree gate.now pass }
    ensures free { IsFree gate.now result }
    ensures share { (path : ℕ → Bool) → on_path path (view result).share ≡ on_path path (view pass).share }
{
    let mut pass = pass;
    let other = gate.split(&mut pass);
    let second = first | 1;
    let (mut pass, other) = join(
        rt,
        || -> Marker
            requires { IsFree gate.now pass }
            ensures free { IsFree gate.entry.now result }
            ensures share { (view result).share ≡ (view pass).share }
        { add(rt, gate, pass, first, 1000) },
        || -> Marker
            requires { IsFree gate.now other }
            ensures free { IsFree gate.entry.now result }
            ensures share { (view result).share ≡ (view other).share }
        { add(rt, gate, other, second, 1000) },
    );
    gate.meet(&mut pass, other);
    pass
}

/// Adds a thousand entries in each of four threads.
fn add_in_four<R: Threads + Wait + Sync>(rt: &R, gate: &Marks, pass: Marker, first: usize) -> Marker
    requires { IsFree gate.now pass }
    ensures free { IsFree gate.now result }
    ensures share { (path : ℕ → Bool) → on_path path (view result).share ≡ on_path path (view pass).share }
{
    let mut pass = pass;
    let other = gate.split(&mut pass);
    let second = first | 2;
    let (mut pass, other) = join(
        rt,
        || -> Marker
            requires { IsSync R.row × IsFree gate.now pass }
            ensures free { IsFree gate.entry.now result }
            ensures share { (path : ℕ → Bool) → on_path path (view result).share ≡ on_path path (view pass).share }
        { add_in_two(rt, gate, pass, first) },
        || -> Marker
            requires { IsSync R.row × IsFree gate.now other }
            ensures free { IsFree gate.entry.now result }
            ensures share { (path : ℕ → Bool) → on_path path (view result).share ≡ on_path path (view other).share }
        { add_in_two(rt, gate, other, second) },
    );
    gate.meet(&mut pass, other);
    pass
}

/// Adds a thousand entries in each of eight threads.
fn add_in_eight<R: Threads + Wait + Sync>(
    rt: &R,
    gate: &Marks,
    pass: Marker,
    first: usize,
) -> Marker
    requires { IsFree gate.now pass }
    ensures free { IsFree gate.now result }
    ensures share { (path : ℕ → Bool) → on_path path (view result).share ≡ on_path path (view pass).share }
{
    let mut pass = pass;
    let other = gate.split(&mut pass);
    let second = first | 4;
    let (mut pass, other) = join(
        rt,
        || -> Marker
            requires { IsSync R.row × IsFree gate.now pass }
            ensures free { IsFree gate.entry.now result }
            ensures share { (path : ℕ → Bool) → on_path path (view result).share ≡ on_path path (view pass).share }
        { add_in_four(rt, gate, pass, first) },
        || -> Marker
            requires { IsSync R.row × IsFree gate.now other }
            ensures free { IsFree gate.entry.now result }
            ensures share { (path : ℕ → Bool) → on_path path (view result).share ≡ on_path path (view other).share }
        { add_in_four(rt, gate, other, second) },
    );
    gate.meet(&mut pass, other);
    pass
}

/// Takes the tally out.
fn closed(gate: Marks, pass: Marker) -> Tally
    requires free { IsFree gate pass }
    requires share { (path : ℕ → Bool) → on_path path (view pass).share ≡ 1 }
{
    gate.close(pass)
}

/// Makes four passes of one.
fn quarters(gate: &Marks, pass: Marker) -> (Marker, Marker, Marker, Marker)
    requires { IsFree gate.now pass }
    ensures free { IsFree gate.now result.0 × IsFree gate.now result.1 × IsFree gate.now result.2 × IsFree gate.now result.3 }
    ensures share { (path : ℕ → Bool) → on_path path (view result.0).share + on_path path (view result.1).share
        + on_path path (view result.2).share + on_path path (view result.3).share ≡ on_path path (view pass).share }
{
    let mut a = pass;
    let mut c = gate.split(&mut a);
    let b = gate.split(&mut a);
    let d = gate.split(&mut c);
    (a, b, c, d)
}

/// Meets four passes: the first with the second, the third with the fourth, and then both.
fn met(gate: &Marks, a: Marker, b: Marker, c: Marker, d: Marker) -> Marker
    requires { IsFree gate.now a × IsFree gate.now b × IsFree gate.now c × IsFree gate.now d }
    ensures free { IsFree gate.now result }
    ensures share { (path : ℕ → Bool) → on_path path (view result).share
        ≡ on_path path (view a).share + on_path path (view b).share + on_path path (view c).share + on_path path (view d).share }
{
    let mut a = a;
    let mut c = c;
    gate.meet(&mut a, b);
    gate.meet(&mut c, d);
    gate.meet(&mut a, c);
    a
}

/// Meets four passes in one of six orders.
fn met_in_order(gate: &Marks, order: u8, a: Marker, b: Marker, c: Marker, d: Marker) -> Marker
    requires { IsFree gate.now a × IsFree gate.now b × IsFree gate.now c × IsFree gate.now d }
    ensures free { IsFree gate.now result }
    ensures share { (path : ℕ → Bool) → on_path path (view result).share
        ≡ on_path path (view a).share + on_path path (view b).share + on_path path (view c).share + on_path path (view d).share }
{
    match order {
        0 => met(gate, a, b, c, d),
        1 => met(gate, d, c, b, a),
        2 => met(gate, a, c, b, d),
        3 => met(gate, c, a, d, b),
        4 => met(gate, b, c, d, a),
        _ => met(gate, d, a, c, b),
    }
}

/// Whether this many entries were added, in all and by each thread.
fn has_counted(tally: &Tally, count: u64, wanted: [u64; 8]) -> bool {
    let by = tally.by;
    tally.count == count && by == wanted
}

/// Counts what two and then eight threads add, each a thousand entries.
fn counted_by_threads<R: Threads + Wait + Sync>(rt: &R, alloc: Global) -> Option<Tally> {
    let (gate, pass) = begun(alloc)?;
    let pass = add_in_two(rt, &gate, pass, 0);
    let pass = add_in_eight(rt, &gate, pass, 0);
    Some(closed(gate, pass))
}

#[test]
fn each_entry_of_each_thread_is_counted(rt: HostRuntime) -> Result<(), Fail> {
    let tally = counted_by_threads(&rt, rt.alloc()).ok_or("no memory")?;
    let by = [2000, 2000, 1000, 1000, 1000, 1000, 1000, 1000];
    assert!(rt; has_counted(&tally, 10_000, by));
    Ok(())
}

/// Closes after splits and meetings in an order. Two of the four passes never enter.
fn counted_in_order<R: Wait>(rt: &R, alloc: Global, order: u8) -> Option<Tally> {
    let (gate, pass) = begun(alloc)?;
    let (a, b, c, d) = quarters(&gate, pass);
    let a = add(rt, &gate, a, 0, 3);
    let c = add(rt, &gate, c, 2, 5);
    let pass = met_in_order(&gate, order, a, b, c, d);
    let pass = add(rt, &gate, pass, 7, 1);
    Some(closed(gate, pass))
}

/// Returns the number of the first order with another tally.
fn first_wrong_order<R: Wait>(rt: &R, alloc: Global) -> Option<usize> {
    for order in 0..6u8 {
        match counted_in_order(rt, alloc, order) {
            Some(tally) if has_counted(&tally, 9, [3, 0, 5, 0, 0, 0, 0, 1]) => {}
            _ => return Some(usize::from(order)),
        }
    }
    None
}

#[test]
fn the_last_pass_closes_after_meetings_in_any_order(rt: HostRuntime) -> Result<(), Fail> {
    no_wrong(first_wrong_order(&rt, rt.alloc()))
}
