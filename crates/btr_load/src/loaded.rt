//! What became of rows.
ghost use Rattle.std.specs.Prelude.{◌≡◌};

use crate::stream::LoadedStream;
use btr_rows::RefusedRow;
use std::marker::Model;

/// What became of the rows of an input: each stream, in the order of their first rows, and the rows that were refused when the
/// input was read.
#[derive(Drop)]
pub struct Loaded {
    streams: Vec<LoadedStream>,
    refused: Vec<RefusedRow>,
}

impl Model for Loaded {
    ghost use Rattle.btr_load.specs.Loads.{LoadedValue};

    ghost Value = { LoadedValue };

    ghost view = { λ l. record { streams = l.streams.items; refused = l.refused.items } };
}

impl Loaded {
    /// Makes the value of these lists. It takes no memory.
    pub(crate) fn from_parts(streams: Vec<LoadedStream>, refused: Vec<RefusedRow>) -> Loaded
        ensures { result ≡ record { streams = streams.items; refused = refused.items } }
    {
        Loaded { streams, refused }
    }

    /// Returns the streams, in the order of their first rows, in constant time. It takes no memory.
    pub fn streams(&self) -> &[LoadedStream]
        ensures { result.now ≡ self.now.streams }
    {
        self.streams.as_slice()
    }

    /// Returns the refused rows, in the order of their numbers, in constant time. It takes no memory.
    pub fn refused(&self) -> &[RefusedRow]
        ensures { result.now ≡ self.now.refused }
    {
        self.refused.as_slice()
    }
}
