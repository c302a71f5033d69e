//! The feed, and what it answers.
ghost use Rattle.std.specs.Prelude.{◌≡◌, ◌+◌, ◌≤◌, ◌==◌, [], ◌++◌, length, None, IfOk, OnOk, OnErr};
ghost use Rattle.btr_base.specs.Point.{AreInDomain};
ghost use Rattle.btr_base.specs.declared.limits.TheConstants.{MAX_COMMIT_POINTS};
ghost use Rattle.btr_feed.specs.Feed.{insert_fault, held, FailsBy};
ghost use Rattle.btr_feed.specs.declared.feed.FeedFault.TheVariants.{Want};

use crate::domain::least_time_outside;
use btr_base::{MAX_COMMIT_POINTS, Point};
use std::alloc::{AllocError, Global};
use std::marker::Model;
use std::mem;

/// What a feed holds after an insert: the number of its points.
#[derive(Clone, Copy, PartialEq, Eq)]
pub enum Held {
    /// The points have not reached the threshold.
    Buffered(u32),

    /// The points have reached the threshold: they are to be committed.
    Due(u32),
}

/// Why points are not accepted. If there are several causes, the first in this order. The feed is as before.
#[derive(Clone, Copy, PartialEq, Eq)]
pub enum FeedFault {
    /// A point lies outside the domain: the least such time, in nanoseconds.
    OutOfDomain { time: i64 },

    /// The feed would hold more than 65,536 points, the most that one commit adds: the number that it would hold.
    TooMany { count: u64 },

    /// Out of memory.
    Want,
}

impl From<AllocError> for FeedFault {
    ghost from_gives = { λ _ e. e ≡ Want };

    fn from(_error: AllocError) -> FeedFault {
        FeedFault::Want
    }
}

/// Points of one stream in the order of insertion, each accepted point once. All lie in the domain, and they are at most
/// 65,536, so that they can be one commit.
#[derive(Drop)]
pub struct Feed {
    stream: u32,
    threshold: u32,
    points: Vec<Point>,
}

impl Model for Feed {
    ghost use Rattle.btr_feed.specs.Feed.{FeedValue, MayWait};

    ghost Value = { FeedValue };

    ghost view = { λ f. record { stream = f.stream; threshold = f.threshold; points = f.points.items } };

    ghost invariant = { λ f. MayWait f.points.items };
}

impl Feed {
    /// Returns an empty feed of a stream with a threshold, the number of points at which they are due, from 1 to 65,536. It
    /// takes no memory.
    pub fn new(alloc: Global, stream: u32, threshold: u32) -> Feed
        requires least { 1 ≤ threshold }
        requires most { threshold ≤ MAX_COMMIT_POINTS }
        ensures { result ≡ record { stream = stream; threshold = threshold; points = [] } }
    {
        Feed {
            stream,
            threshold,
            points: Vec::new(alloc),
        }
    }

    /// Adds the points after those of the feed, and reports whether all that it then holds are due. After an `Err` the feed is
    /// as before. It takes time linear in the points that it adds, amortised over inserts, and memory for them.
    pub fn insert(&mut self, points: &[Point]) -> Result<Held, FeedFault>
        ensures fault { FailsBy (insert_fault self.old points.now) result }
        ensures points { OnOk result (self.new ≡ record self.old { points = self.old.points ++ points.now }) }
        ensures held { IfOk result (λ h. h ≡ held self.new) }
        ensures err { OnErr result (self.new ≡ self.old) }
    {
        if let Some(fault) = self.fault(points) {
            return Err(fault);
        }
        self.add(points)?;
        Ok(self.held())
    }

    /// Returns why an insert of these points is refused, or `None` if only memory can be missing. It takes one pass over the points,
    /// and no memory.
    #[tactic(auto, using(crate::proofs::TimesOutside::none_outside))]
    pub fn fault(&self, points: &[Point]) -> Option<FeedFault>
        ensures fault { result ≡ insert_fault self.now points.now }
        ensures in_domain { result ≡ None → AreInDomain points.now }
        ensures most { result ≡ None → length self.now.points + length points.now ≤ MAX_COMMIT_POINTS }
    {
        if let Some(time) = least_time_outside(points) {
            return Some(FeedFault::OutOfDomain { time });
        }
        let count = self.points.len() + points.len();
        if count > MAX_COMMIT_POINTS {
            return Some(FeedFault::TooMany {
                count: count as u64,
            });
        }
        None
    }

    /// Adds points that the feed may hold. After an `Err`, which means out of memory, the feed is as before.
    fn add(&mut self, points: &[Point]) -> Result<(), AllocError>
        requires in_domain { AreInDomain points.now }
        requires most { length self.old.points + length points.now ≤ MAX_COMMIT_POINTS }
        ensures points { OnOk result (self.new ≡ record self.old { points = self.old.points ++ points.now }) }
        ensures err { OnErr result (self.new ≡ self.old) }
    {
        self.points.extend_from_slice(points)
    }

    /// Returns the number of points, and whether they are due.
    fn held(&self) -> Held
        ensures { result ≡ held self.now }
    {
        let count = self.len();
        if count < self.threshold {
            Held::Buffered(count)
        } else {
            Held::Due(count)
        }
    }

    /// Takes all points out, in the order of insertion. The feed is then empty. It takes constant time, and no memory.
    pub fn take(&mut self) -> Vec<Point>
        ensures points { result.items ≡ self.old.points }
        ensures in_domain { AreInDomain result.items }
        ensures most { length result.items ≤ MAX_COMMIT_POINTS }
        ensures emptied { self.new ≡ record self.old { points = [] } }
    {
        let empty = Vec::new(*self.points.allocator());
        mem::replace(&mut self.points, empty)
    }

    /// Makes the points those of the feed, which is empty, in their order. They lie in the domain, and are at most 65,536, as
    /// those of [`Feed::take`] are. It takes constant time, and no memory.
    pub fn put_back(&mut self, points: Vec<Point>)
        requires empty { self.old.points ≡ [] }
        requires in_domain { AreInDomain points.items }
        requires most { length points.items ≤ MAX_COMMIT_POINTS }
        ensures { self.new ≡ record self.old { points = points.items } }
    {
        self.points = points;
    }

    /// Removes all points. It keeps their memory for later inserts.
    pub fn discard(&mut self)
        ensures { self.new ≡ record self.old { points = [] } }
    {
        self.points.clear();
    }

    /// Returns the number of points.
    pub fn len(&self) -> u32
        ensures { result ≡ length self.now.points }
    {
        self.points.len() as u32
    }

    /// Returns whether there are no points.
    pub fn is_empty(&self) -> bool
        ensures { result ≡ (length self.now.points == 0) }
    {
        self.points.is_empty()
    }

    /// Returns the number of the stream.
    pub fn stream(&self) -> u32
        ensures { result ≡ self.now.stream }
    {
        self.stream
    }

    /// Returns the number of points at which they are due.
    pub fn threshold(&self) -> u32
        ensures { result ≡ self.now.threshold }
    {
        self.threshold
    }
}
