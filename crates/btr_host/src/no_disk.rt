//! The device of a run that has no file.
ghost use Rattle.std.specs.Prelude.{◌≡◌, ◌^◌};
ghost use Rattle.btr_disk.specs.Causes.{Counted};

use crate::count::raise;
use btr_disk::{BlockSource, Disk, Failed, Parts};
use btr_super::MAX_BLOCKS;

/// A device of `2^32` blocks on which each read, write and sync fails: the device of a run without a path, or whose
/// file cannot be opened. Its contents are not observable.
#[derive(Drop)]
pub struct NoDisk {
    calls: u64,
    faults: u64,
}

impl NoDisk {
    /// A device on which no call was made.
    pub fn new() -> NoDisk
        ensures calls { result.calls ≡ 0 }
        ensures faults { result.faults ≡ 0 }
    {
        NoDisk {
            calls: 0,
            faults: 0,
        }
    }

    /// Counts a call and a fault.
    fn fail(&mut self) -> Failed
        ensures calls { Counted self.old.calls self.new.calls }
        ensures faults { Counted self.old.faults self.new.faults }
    {
        raise(&mut self.calls);
        raise(&mut self.faults);
        Failed
    }
}

impl Disk for NoDisk {
    ghost is_observable = { ⊥ };

    ghost size = { λ disk. 2 ^ 32 };

    ghost contents = { λ disk address. 0 };

    ghost images_now = { λ disk c. ⊥ };

    ghost images_since = { λ disk t c. ⊥ };

    ghost calls = { λ disk. disk.calls };

    ghost faults = { λ disk. disk.faults };

    fn blocks(&self) -> u64 {
        MAX_BLOCKS
    }

    fn read(&mut self, _first: u64, _buf: &mut [u8]) -> Result<(), Failed> {
        Err(self.fail())
    }

    fn write(&mut self, _first: u64, _bytes: &[u8]) -> Result<(), Failed> {
        Err(self.fail())
    }

    fn write_parts<S: BlockSource>(
        &mut self,
        _first: u64,
        _prefix: &Parts,
        _rest: &S,
    ) -> Result<(), Failed> {
        Err(self.fail())
    }

    fn sync(&mut self) -> Result<(), Failed> {
        Err(self.fail())
    }

    ghost image_bytes = { λ observable. absurd observable };

    ghost reads_as_image = { λ observable. absurd observable };

    ghost counts_now = { λ observable. absurd observable };

    ghost only_now = { λ observable. absurd observable };

    ghost fewer_later = { λ observable. absurd observable };
}
