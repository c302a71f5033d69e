//! The readers of each stream of a board: the outputs that have it as an input. They tell a retirement which outputs to ask.
ghost use Rattle.std.specs.Prelude.{◌≡◌, ◌<◌, List, [], ◌∷◌, ◌++◌, length, slice_set, slice_index_or, Option, IfOk, IfSome};
ghost use Rattle.btr_hist.specs.declared.kernel.Spec.{Spec as SpecValue};
ghost use Rattle.btr_streams.specs.Readers.{AreInputsBelow, AreReaders};

use btr_board::Trail;
use btr_hist::Spec;
use std::alloc::{AllocError, Global};

/// Returns the readers of each stream with one stream more, which has this number: an output of this spec, or a plain stream. Nothing
/// has the new stream as an input, and each of its own inputs has one reader more. It costs logarithmic time.
pub(crate) fn with_stream_read(
    alloc: Global,
    readers: &Trail<Trail<u32>>,
    number: u32,
    spec: Option<Spec>,
) -> Result<Trail<Trail<u32>>, AllocError>
    requires number { number ≡ length readers.now }
    requires inputs { IfSome spec (AreInputsBelow (length readers.now)) }
    ensures { (kinds : List (Option SpecValue)) → AreReaders kinds readers.now → IfOk result (AreReaders (kinds ++ spec ∷ [])) }
{
    let more = readers.push(alloc, Trail::empty())?;
    let Some(spec) = spec else {
        return Ok(more);
    };
    let once = with_reader(alloc, &more, spec.first, number)?;
    let Some(second) = spec.second else {
        return Ok(once);
    };
    if second == spec.first {
        return Ok(once);
    }
    with_reader(alloc, &once, second, number)
}

/// Returns the readers of each stream, with one reader more of this input.
pub(crate) fn with_reader(
    alloc: Global,
    readers: &Trail<Trail<u32>>,
    input: u32,
    number: u32,
) -> Result<Trail<Trail<u32>>, AllocError>
    requires there { input < length readers.now }
    ensures { IfOk result (λ r. r ≡ slice_set readers.now input (slice_index_or readers.now input [] ++ number ∷ [])) }
{
    let place = input as usize;
    let Some(old) = readers.get(place) else {
        unreachable!()
    };
    let new = old.push(alloc, number)?;
    readers.set(alloc, place, new)
}
