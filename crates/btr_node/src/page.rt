//! A node's page: what it says of a span of a stream.
ghost use Rattle.std.specs.Prelude.{◌≡◌};
ghost use Rattle.btr_node.specs.Page.{Keeps, header, slots_of_page, span_of_page};

use btr_base::{Agg, Point, Span};

/// The number of bytes of a page.
pub const PAGE: usize = 4096;

/// The number of slots of an inner node's page.
pub const SLOTS: usize = 64;

/// The page of a node of the tree (BTrDB, FAST 2016).
///
/// A page that keeps the table is of a span of the tree, and of a version from 1 to 4294967295 of its stream. A leaf has 1 to
/// 252 points, by time and value and in its span, and zeros in the other places. An inner node has height 1 at least, and 253 to
/// `2^32` points, the sum of its slots' counts.
#[derive(Clone, Copy, PartialEq, Eq)]
pub enum NodePage {
    /// A span whose points stand here.
    Leaf {
        /// The first time of the span, in nanoseconds.
        start: i64,

        /// The height of the span, 0 to 10.
        height: u32,

        /// The number of the stream.
        stream: u32,

        /// The version of the node.
        version: u64,

        /// The number of points.
        count: u64,

        /// The points, and zeros after them.
        points: [Point; 252],
    },

    /// A span whose points stand in the pages of its 64 slots.
    Inner {
        /// The first time of the span, in nanoseconds.
        start: i64,

        /// The height of the span, 1 to 10.
        height: u32,

        /// The number of the stream.
        stream: u32,

        /// The version of the node.
        version: u64,

        /// The number of points.
        count: u64,

        /// The slots, by time.
        slots: [PageSlot; 64],
    },
}

impl NodePage {
    /// The fields that both kinds have. It takes constant time.
    pub fn header(&self) -> PageHeader
        ensures { result ≡ header self.now }
    {
        match self {
            NodePage::Leaf {
                start,
                height,
                stream,
                version,
                count,
                ..
            }
            | NodePage::Inner {
                start,
                height,
                stream,
                version,
                count,
                ..
            } => PageHeader {
                start: *start,
                height: *height,
                stream: *stream,
                version: *version,
                count: *count,
            },
        }
    }

    /// The span of a page that keeps the table. It takes constant time.
    pub fn span(&self) -> Span
        requires { Keeps self.now }
        ensures { result ≡ span_of_page self.now }
    {
        let header = self.header();
        Span {
            start: header.start,
            height: header.height as u8,
        }
    }

    /// The slots: none of a leaf. It takes constant time.
    pub fn slots(&self) -> &[PageSlot]
        ensures { result.now ≡ slots_of_page self.now }
    {
        match self {
            NodePage::Leaf { .. } => &[],
            NodePage::Inner { slots, .. } => slots,
        }
    }
}

/// One of the 64 spans of the next lower height that an inner node consists of, as its page says it.
///
/// The version is at most that of the node. Where there is a point, version and child are not 0; where there is none, the child
/// is 0.
#[derive(Clone, Copy, PartialEq, Eq)]
pub struct PageSlot {
    /// The aggregate of the slot's points.
    pub agg: Agg,

    /// The version of the slot's child.
    pub version: u64,

    /// The block of the child's page, or 0 for none.
    pub child: u64,
}

impl PageSlot {
    /// The number of points of the slot.
    pub fn count(&self) -> u64
        ensures { result ≡ self.now.agg.count }
    {
        self.agg.count
    }
}

/// The fields that both kinds of pages have.
#[derive(Clone, Copy)]
pub struct PageHeader {
    /// The first time of the span, in nanoseconds.
    pub start: i64,

    /// The height of the span.
    pub height: u32,

    /// The number of the stream.
    pub stream: u32,

    /// The version of the node.
    pub version: u64,

    /// The number of points.
    pub count: u64,
}
