//! The law of the limits of a sample, as the contract of a function that does nothing.
ghost use Rattle.btr_store.specs.SampleLimits.{SampleLimits};

/// The limits of a sample, as numerals.
pub fn sample_limits_are_these()
    ensures { SampleLimits }
{}
