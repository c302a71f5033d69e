//! What the definitions entail. The law is the contract of a function with an empty body.
ghost use Rattle.btr_node.specs.Laws.{PageOnce};

/// No two pages have the same bytes. So [`decode`](crate::decode) turns what [`encode`](crate::encode) wrote into the same page,
/// and a block is at most one page.
pub fn no_two_pages_have_the_same_bytes()
    ensures { PageOnce }
{}
