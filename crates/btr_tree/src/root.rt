ghost use Rattle.std.specs.Prelude.{◌≡◌};
ghost use Rattle.btr_base.specs.declared.limits.TheConstants.{FIRST as FIRST_TIME};

use btr_base::{FIRST, ROOT_HEIGHT, Span};

/// The span of the root, which is the whole domain.
pub fn root_span() -> Span
    ensures { result ≡ record { start = FIRST_TIME; height = 10 } }
{
    Span {
        start: FIRST,
        height: ROOT_HEIGHT,
    }
}
