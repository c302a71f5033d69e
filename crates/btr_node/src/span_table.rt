//! What pages of both kinds keep: a span of the tree and a version.
ghost use Rattle.std.specs.Prelude.{◌≡◌, IfSome, IfNone};
ghost use Rattle.btr_base.specs.Span.{IsSpan};
ghost use Rattle.btr_node.specs.Page.{IsHeader};

use crate::page::PageHeader;
use btr_base::{END, FIRST, MAX_VERSIONS, ROOT_HEIGHT, Span};

/// The span of a page, if the fields of both kinds keep the table.
pub(crate) fn kept_span(header: &PageHeader) -> Option<Span>
    ensures some { IfSome result (λ s. s ≡ record { start = header.now.start; height = header.now.height }) }
    ensures keeps { IfSome result (λ s. IsHeader header.now) }
    ensures none { IfNone result (IsHeader header.now → ⊥) }
{
    if header.version < 1 || header.version > MAX_VERSIONS as u64 {
        return None;
    }
    span_of(header)
}

/// The span of this start and this height, if the tree has it.
fn span_of(header: &PageHeader) -> Option<Span>
    ensures some { IfSome result (λ s. s ≡ record { start = header.now.start; height = header.now.height }) }
    ensures span { IfSome result (λ s. IsSpan s) }
    ensures none { IfNone result (IsSpan (record { start = header.now.start; height = header.now.height }) → ⊥) }
{
    if header.height > u32::from(ROOT_HEIGHT) || header.start < FIRST || header.start >= END {
        return None;
    }
    let span = Span::of(header.start, header.height as u8);
    if start_of(&span) != header.start {
        return None;
    }
    Some(span)
}

/// The first time of a span.
pub(crate) fn start_of(span: &Span) -> i64
    ensures start { result ≡ span.now.start }
    ensures span { IsSpan span.now }
{
    span.start
}
