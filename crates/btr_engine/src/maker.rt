//! Who makes what a commit needs: the calling thread alone, or several threads.
ghost use Rattle.std.specs.Prelude.{◌≡◌, ◌*◌, ◌≤◌, length, IfOk, IsTrue, IsFalse, OnOk};
ghost use Rattle.std.specs.List.{flat_map};
ghost use Rattle.btr_entry.specs.Grammar.{point, ValuesFit};
ghost use Rattle.btr_disk.specs.Put.{HasBlocks};
ghost use Rattle.btr_engine.specs.Streamed.{streamed_bytes};

use crate::extent_parts::{points_by, points_in};
use crate::streamed::StreamedPages;
use btr_base::Point;
use btr_disk::{BlockSink, Parts, write_alone, write_by_threads};
use btr_streams::{Alone, Crew, TreeMaker};
use std::alloc::{AllocError, Global};
use std::marker::Sync;
use std::thread::Threads;

/// Who makes what a commit needs: the tree of its stream's next version, and what is large in its extent.
pub trait Maker: TreeMaker {
    /// The greatest number of threads that work at once, the calling one among them.
    fn threads(&self) -> usize;

    /// Has the sink write its prefix and each of the blocks. Returns whether all of it was written, and false only if a call of the sink
    /// returned false.
    fn write_streamed(&self, blocks: &StreamedPages<'_>, sink: &(dyn BlockSink + Sync)) -> bool
        requires able { Self.can_make }
        requires room { length (streamed_bytes blocks.now.is_streamed blocks.now.stream blocks.now.nodes.now) ≤ 4096 * room sink.now }
        ensures prefix { IsTrue result → has_prefix sink.now }
        ensures blocks { IsTrue result
            → HasBlocks (has_block sink.now) (streamed_bytes blocks.now.is_streamed blocks.now.stream blocks.now.nodes.now) }
        ensures failed { IsFalse result → has_failed sink.now };

    /// Returns the bytes of points as an entry has them. An `Err` is out of memory.
    fn points(&self, alloc: Global, points: &[Point]) -> Result<Parts, AllocError>
        requires { Self.can_make }
        ensures bytes { IfOk result (λ p. p ≡ flat_map point points.now) }
        ensures values { OnOk result (ValuesFit points.now) };
}

impl Maker for Alone {
    fn threads(&self) -> usize {
        1
    }

    fn write_streamed(&self, blocks: &StreamedPages<'_>, sink: &(dyn BlockSink + Sync)) -> bool {
        write_alone(blocks, sink)
    }

    fn points(&self, alloc: Global, points: &[Point]) -> Result<Parts, AllocError> {
        points_by(alloc, points)
    }
}

impl<R: Threads + Sync> Maker for Crew<'_, R> {
    fn threads(&self) -> usize {
        self.threads
    }

    fn write_streamed(&self, blocks: &StreamedPages<'_>, sink: &(dyn BlockSink + Sync)) -> bool {
        write_by_threads(self.rt, blocks, self.threads, sink)
    }

    fn points(&self, alloc: Global, points: &[Point]) -> Result<Parts, AllocError> {
        points_in(self.rt, alloc, points, self.threads)
    }
}
