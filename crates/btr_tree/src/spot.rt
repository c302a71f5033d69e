//! Where nodes are that are fetched: roots, and places that a walk reads from pages.

/// The root of a version of a stream: the block of its node, which is 0 if the version has no point.
///
/// If the block has no page, or not that of a root of this stream which is not newer than the version, then a walk from the root
/// names the root's own block as damaged.
#[derive(Clone, Copy, PartialEq, Eq)]
pub struct Root {
    /// The block of the root's page, or 0 for none.
    pub block: u64,

    /// The number of the stream.
    pub stream: u32,

    /// The version. The root's page has this version or an earlier one.
    pub version: u64,
}

/// Where the node of a span is, and what the slot that leads there says of it.
///
/// Its page is of the stream and of the span, with this version and this count. If it is another page, the block of the parent is
/// damaged.
#[derive(Clone, Copy, PartialEq, Eq)]
pub struct Spot {
    /// The block of the node's page.
    pub block: u64,

    /// The number of the stream.
    pub stream: u32,

    /// The version of the node.
    pub version: u64,

    /// The number of points, 0 if there is no node.
    pub count: u64,

    /// The block whose page has the slot that leads here. The place of a root has the root's own block.
    pub parent: u64,
}
