//! Where a write to a file puts what it is given.
ghost use Rattle.std.specs.Prelude.{◌≡◌, ◌+◌, ◌*◌, ◌^◌, ◌<◌, length};
ghost use Rattle.std.specs.List.{flat_map};

use btr_disk::{BLOCK, BlockSink, Parts};
use std::fs::File;
use std::io;
use std::os::unix::fs::FileExt;

/// Where a write puts its prefix, and the blocks after it.
#[derive(Drop)]
pub(crate) struct FileBlockSink<'a> {
    pub(crate) file: &'a File,

    /// The byte of the file at which the prefix begins.
    pub(crate) offset: u64,

    pub(crate) prefix: &'a Parts,

    /// The number of blocks after the prefix.
    pub(crate) room: usize,
    ghost inside: { offset + length prefix.now + 4096 * room < 2 ^ 63 },
}

impl FileBlockSink<'_> {
    /// The byte of the file at which the block of this number begins, of those after the prefix.
    fn place_of(&self, block: usize) -> u64
        requires { self.now.offset + length self.now.prefix.now + 4096 * block < 2 ^ 63 }
        ensures { result ≡ self.now.offset + length self.now.prefix.now + 4096 * block }
    {
        self.offset + (self.prefix.len() + block * BLOCK) as u64
    }
}

impl BlockSink for FileBlockSink<'_> {
    ghost use Rattle.std.specs.Prelude.{⊤};

    ghost room = { λ sink. sink.room };

    ghost prefix_size = { λ sink. length sink.prefix.now };

    // No contract says what the file holds, or why a call of the system fails.
    ghost has_prefix = { λ _. ⊤ };

    ghost has_block = { λ _ _ _. ⊤ };

    ghost has_failed = { λ _. ⊤ };

    fn prefix_len(&self) -> usize {
        self.prefix.len()
    }

    fn put_prefix(&self) -> bool {
        write_each(self.file, self.offset, self.prefix.as_slices()).is_ok()
    }

    fn put(&self, first: usize, blocks: &[u8]) -> bool {
        self.file.write_all_at(blocks, self.place_of(first)).is_ok()
    }
}

/// Writes the parts from this offset on, one after the other, and stops at the first that fails.
fn write_each(file: &File, offset: u64, parts: &[Vec<u8>]) -> io::Result<()>
    requires { offset + length (flat_map (λ p. p.items) parts.now) < 2 ^ 63 }
{
    let mut place = offset;
    for part in parts {
        file.write_all_at(part, place)?;
        place += part.len() as u64;
    }
    Ok(())
}
