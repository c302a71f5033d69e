//! Numbers and pieces at an index of a list of bytes. Numbers have their highest byte first.
ghost use Rattle.std.specs.Prelude.{◌≡◌, ◌+◌, ◌≤◌, ◌++◌, length, take, drop};
ghost use Rattle.btr_disk.specs.Numbers.{u32_at, u64_at};

/// The number of four bytes from the index `at` on.
pub fn u32_at(bytes: &[u8], at: usize) -> u32
    requires { at + 4 ≤ length bytes.now }
    ensures { result ≡ u32_at at bytes.now }
{
    let mut word = [0; 4];
    word.copy_from_slice(&bytes[at..at + 4]);
    u32::from_be_bytes(word)
}

/// The number of eight bytes from the index `at` on.
pub fn u64_at(bytes: &[u8], at: usize) -> u64
    requires { at + 8 ≤ length bytes.now }
    ensures { result ≡ u64_at at bytes.now }
{
    let mut word = [0; 8];
    word.copy_from_slice(&bytes[at..at + 8]);
    u64::from_be_bytes(word)
}

/// Writes `piece` into `to` from the index `at` on.
pub fn put(to: &mut [u8], at: usize, piece: &[u8])
    requires { at + length piece.now ≤ length to.old }
    ensures size { length to.new ≡ length to.old }
    ensures begins { take (at + length piece.now) to.new ≡ take at to.old ++ piece.now }
    ensures rest { drop (at + length piece.now) to.new ≡ drop (at + length piece.now) to.old }
{
    to[at..at + piece.len()].copy_from_slice(piece);
}
