//! The first 64 bytes of an extent's body: what the body is, and how many blocks it has.
ghost use Rattle.std.specs.Prelude.{◌≡◌, ◌↔◌, ◌+◌, ◌<◌, ◌^◌, length, IfSome, IsNone, IsTrue};
ghost use Rattle.btr_log.specs.Head.{head_at, head_bytes, content_blocks, entry_head, checkpoint_head, IsHead, IsNoHead, Spells};

use btr_disk::bytes::{put, u32_at, u64_at};

/// Bytes in a head.
pub const HEAD_BYTES: usize = 64;

/// The first eight bytes of a head: ASCII `BTR-BODY`.
pub const HEAD_MARK: [u8; 8] = *b"BTR-BODY";

/// The greatest format of a body.
const MAX_FORMAT: u32 = 4;

/// The head of an extent's body.
///
/// Its 64 bytes are the mark, the fields in their order and width with the highest byte first, and 8 zero
/// bytes. The grammar of a head: its format is 1 to 4, its kind is 1 or 2, and `n` is the number of blocks
/// of head and content, the last one filled up, and of node blocks.
#[derive(Clone, Copy, PartialEq, Eq)]
pub struct Head {
    /// 1 for an entry, whose number is at least 1, or 2 for a checkpoint, which has no nodes and no root.
    pub kind: u32,

    /// The format of the body, 1 to 4. That of an entry is at most 3.
    pub format: u32,

    /// The number of the entry, from 1 on; for a checkpoint, the number of entries before it.
    pub number: u64,

    /// The number of blocks of the body.
    pub n: u64,

    /// The number of bytes of the content, which follows the head.
    pub length: u64,

    /// The number of node blocks, the last ones of the body.
    pub nodes: u64,

    /// The block of the root node, or 0.
    pub root: u64,
}

impl Head {
    /// The head, in this format, of the entry with this number and a content of `length` bytes, in a body with this many node blocks and
    /// this root.
    pub fn for_entry(format: u32, number: u64, length: u64, nodes: u64, root: u64) -> Head
        requires { content_blocks length + nodes < 2 ^ 64 }
        ensures { result ≡ entry_head format number length nodes root }
    {
        Head {
            kind: 1,
            format,
            number,
            n: blocks_of_content(length) + nodes,
            length,
            nodes,
            root,
        }
    }

    /// The head, in this format, of a checkpoint after this number of entries, with a content of `length` bytes. Its body has no node
    /// blocks and no root.
    pub fn for_checkpoint(format: u32, number: u64, length: u64) -> Head
        ensures { result ≡ checkpoint_head format number length }
    {
        Head {
            kind: 2,
            format,
            number,
            n: blocks_of_content(length),
            length,
            nodes: 0,
            root: 0,
        }
    }

    /// Writes the head's 64 bytes, its only spelling. The caller passes a head that keeps the grammar.
    pub fn encode(&self, to: &mut [u8; HEAD_BYTES])
        requires { IsHead self.now }
        ensures { to.new ≡ head_bytes self.now }
    {
        put(to, 0, &HEAD_MARK);
        put(to, 8, &self.kind.to_be_bytes());
        put(to, 12, &self.format.to_be_bytes());
        put(to, 16, &self.number.to_be_bytes());
        put(to, 24, &self.n.to_be_bytes());
        put(to, 32, &self.length.to_be_bytes());
        put(to, 40, &self.nodes.to_be_bytes());
        put(to, 48, &self.root.to_be_bytes());
        put(to, 56, &[0; 8]);
    }

    /// The head that these bytes spell, or `None` exactly if they spell none.
    pub fn decode(bytes: &[u8; HEAD_BYTES]) -> Option<Head>
        ensures found { IfSome result (Spells bytes.now) }
        ensures none { IsNone result → IsNoHead bytes.now }
    {
        let head = read_fields(bytes);
        if !keeps_grammar(head) {
            return None;
        }
        let mut spelling = [0; HEAD_BYTES];
        head.encode(&mut spelling);
        if is_same(&spelling, bytes) {
            Some(head)
        } else {
            None
        }
    }
}

/// Whether the fields keep the grammar of a head.
fn keeps_grammar(head: Head) -> bool
    ensures { IsTrue result ↔ IsHead head }
{
    let is_kind = (head.kind == 1 && head.number >= 1)
        || (head.kind == 2 && head.nodes == 0 && head.root == 0);
    let is_format = head.format >= 1 && head.format <= MAX_FORMAT;
    let content = blocks_of_content(head.length);
    is_format && is_kind && head.n >= content && head.n - content == head.nodes
}

/// The number of blocks that the head and a content of `length` bytes fill, the last one filled up.
pub fn blocks_of_content(length: u64) -> u64
    ensures { result ≡ content_blocks length }
{
    length / 4096 + (length % 4096 + 63) / 4096 + 1
}

/// The fields at their places, whatever the bytes are.
fn read_fields(bytes: &[u8]) -> Head
    requires { length bytes.now ≡ 64 }
    ensures { result ≡ head_at bytes.now }
{
    Head {
        kind: u32_at(bytes, 8),
        format: u32_at(bytes, 12),
        number: u64_at(bytes, 16),
        n: u64_at(bytes, 24),
        length: u64_at(bytes, 32),
        nodes: u64_at(bytes, 40),
        root: u64_at(bytes, 48),
    }
}

/// Whether two slices have the same bytes.
fn is_same(first: &[u8], second: &[u8]) -> bool
    ensures { IsTrue result ↔ (first.now ≡ second.now) }
{
    first == second
}
