//! The format of an entry's extent, and of a spec.
ghost use Rattle.std.specs.Prelude.{◌≡◌, ◌≤◌};
ghost use Rattle.btr_entry.specs.Format.{format_of, spec_format};

use btr_hist::{Entry, Kernel, Spec};

/// Returns the format of the extent of an entry: the least format of a store that can have it. It takes constant time.
#[tactic(auto, unfolding(crate::specs::Format::format_of))]
pub fn format_of(entry: &Entry) -> u32
    ensures format { result ≡ format_of entry.now }
    ensures known { (1 ≤ result) × (result ≤ 3) }
{
    match entry {
        Entry::Create { .. } | Entry::Commit { .. } | Entry::Distillate { .. } => 1,
        Entry::Define { spec, .. } => spec_format(spec),
        Entry::Retire { .. } => 2,
    }
}

/// Returns the format of the extent that defines an output with this spec, which is the least format of a store that can have the output.
/// It takes constant time.
#[tactic(auto, unfolding(crate::specs::Format::spec_format))]
pub fn spec_format(spec: &Spec) -> u32
    ensures format { result ≡ spec_format spec.now }
    ensures known { (1 ≤ result) × (result ≤ 3) }
{
    match spec.kernel {
        Kernel::Cell { .. } => 3,
        _ => 1,
    }
}
