//! The feeds of a run: the points that wait for a commit, for each stream.
ghost use Rattle.std.specs.Prelude.{◌≡◌, ◌≤◌, ◌<◌, ◌==◌, false, [], ◌∷◌, ◌++◌, length, IfOk, OnOk, OnErr};
ghost use Rattle.btr_base.specs.Point.{AreInDomain};
ghost use Rattle.btr_base.specs.declared.limits.TheConstants.{MAX_COMMIT_POINTS};
ghost use Rattle.btr_feed.specs.Feed.{FailsBy, held, insert_fault};
ghost use Rattle.btr_live.specs.Feeds.{feed_of, waiting_of, with_points, KeepsFeeds};

use btr_base::Point;
use btr_feed::{Feed, FeedFault, Held};
use std::alloc::{AllocError, Global};
use std::marker::Model;

/// A feed for each stream from 0 on, up to the last one that points were added to. A feed is found in constant time by
/// the number of its stream.
#[derive(Drop)]
pub struct Feeds {
    batch: u32,
    feeds: Vec<Feed>,
}

impl Model for Feeds {
    ghost use Rattle.std.specs.Prelude.{◌≤◌};
    ghost use Rattle.btr_base.specs.declared.limits.TheConstants.{MAX_COMMIT_POINTS};
    ghost use Rattle.btr_live.specs.Feeds.{FeedsValue, HaveThreshold};

    ghost Value = { FeedsValue };

    ghost view = { λ f. record { batch = f.batch; feeds = f.feeds.items } };

    ghost invariant = { λ f. (1 ≤ f.batch) × (f.batch ≤ MAX_COMMIT_POINTS) × HaveThreshold f.batch f.feeds.items };
}

impl Feeds {
    /// Returns feeds without points. Points are due if there are as many as `batch`. It takes no memory.
    pub fn new(alloc: Global, batch: u32) -> Feeds
        requires least { 1 ≤ batch }
        requires most { batch ≤ MAX_COMMIT_POINTS }
        ensures { result ≡ record { batch = batch; feeds = [] } }
    {
        Feeds {
            batch,
            feeds: Vec::new(alloc),
        }
    }

    /// Adds points to the feed of a stream, and returns the number of its points, and whether they are due. After an
    /// `Err` the points are as before. It takes memory for the points, and once for each stream.
    pub fn insert(&mut self, stream: u32, points: &[Point]) -> Result<Held, FeedFault>
        ensures fault { FailsBy (insert_fault (feed_of self.old.batch stream (waiting_of self.old stream)) points.now) result }
        ensures held { IfOk result (λ h. h ≡ held (feed_of self.old.batch stream (waiting_of self.old stream ++ points.now))) }
        ensures waiting { OnOk result (KeepsFeeds (waiting_of self.old stream ++ points.now) stream self.old self.new) }
        ensures there { OnOk result (stream < length self.new.feeds) }
        ensures err { OnErr result (KeepsFeeds (waiting_of self.old stream) stream self.old self.new) }
    {
        match self.feeds.get_mut(stream as usize) {
            Some(feed) => feed.insert(points),
            None => self.insert_first(stream, points),
        }
    }

    /// Adds points for a stream that has no feed yet.
    fn insert_first(&mut self, stream: u32, points: &[Point]) -> Result<Held, FeedFault>
        requires absent { length self.old.feeds ≤ stream }
        ensures fault { FailsBy (insert_fault (feed_of self.old.batch stream []) points.now) result }
        ensures held { IfOk result (λ h. h ≡ held (feed_of self.old.batch stream points.now)) }
        ensures waiting { OnOk result (KeepsFeeds points.now stream self.old self.new) }
        ensures there { OnOk result (stream < length self.new.feeds) }
        ensures err { OnErr result (KeepsFeeds (waiting_of self.old stream) stream self.old self.new) }
    {
        let mut feed = Feed::new(*self.feeds.allocator(), stream, self.batch);
        let held = feed.insert(points)?;
        self.reach(stream)?;
        self.push(feed)?;
        Ok(held)
    }

    /// Makes empty feeds for all streams before this one. After an `Err`, which means out of memory, there may be fewer.
    fn reach(&mut self, stream: u32) -> Result<(), AllocError>
        requires absent { length self.old.feeds ≤ stream }
        ensures there { OnOk result (length self.new.feeds ≡ stream) }
        ensures waiting { waiting_of self.new ≡ waiting_of self.old }
        ensures batch { self.new.batch ≡ self.old.batch }
    {
        for number in self.feeds.len() as u32..stream {
            let feed = Feed::new(*self.feeds.allocator(), number, self.batch);
            self.push(feed)?;
        }
        Ok(())
    }

    /// Adds the feed of the next stream. After an `Err`, which means out of memory, nothing has changed.
    fn push(&mut self, feed: Feed) -> Result<(), AllocError>
        requires threshold { feed.threshold ≡ self.old.batch }
        ensures feed { OnOk result (self.new ≡ record self.old { feeds = self.old.feeds ++ feed ∷ [] }) }
        ensures err { OnErr result (self.new ≡ self.old) }
    {
        self.feeds.push(feed)?;
        Ok(())
    }

    /// Returns whether no points wait for a stream.
    pub fn is_empty(&self, stream: u32) -> bool
        ensures empty { result ≡ (length (waiting_of self.now stream) == 0) }
        ensures there { result ≡ false → stream < length self.now.feeds }
    {
        match self.feeds.get(stream as usize) {
            Some(feed) => feed.is_empty(),
            None => true,
        }
    }

    /// Takes the points of a stream, in the order of insertion. None then wait for it. It takes no memory.
    pub fn take(&mut self, stream: u32) -> Vec<Point>
        requires there { stream < length self.old.feeds }
        ensures points { result.items ≡ waiting_of self.old stream }
        ensures in_domain { AreInDomain result.items }
        ensures most { length result.items ≤ MAX_COMMIT_POINTS }
        ensures emptied { KeepsFeeds [] stream self.old self.new }
        ensures there { length self.new.feeds ≡ length self.old.feeds }
    {
        self.feeds[stream as usize].take()
    }

    /// Makes these the points of a stream, for which none wait, in their order. It takes no memory.
    pub fn put_back(&mut self, stream: u32, points: Vec<Point>)
        requires there { stream < length self.old.feeds }
        requires empty { waiting_of self.old stream ≡ [] }
        requires in_domain { AreInDomain points.items }
        requires most { length points.items ≤ MAX_COMMIT_POINTS }
        ensures { KeepsFeeds points.items stream self.old self.new }
    {
        self.feeds[stream as usize].put_back(points);
    }

    /// Drops the points that wait for a stream. It takes no memory.
    pub fn discard(&mut self, stream: u32)
        ensures { KeepsFeeds [] stream self.old self.new }
    {
        if let Some(feed) = self.feeds.get_mut(stream as usize) {
            feed.discard();
        }
    }
}
