ghost use Rattle.std.specs.Prelude.{◌≡◌, ◌+◌, ◌<◌, ◌^◌, List, [], ◌∷◌, ◌++◌, Result, OnOk};
ghost use Rattle.btr_rows.specs.declared.row.Row.{Row as RowSpec};
ghost use Rattle.btr_rows.specs.declared.row.RowReason.{RowReason as ReasonSpec};
ghost use Rattle.btr_rows.specs.Builder.{built_of};

use crate::list::RowList;
use crate::row::{RefusedRow, Row, RowReason};
use crate::streams::Streams;
use std::alloc::{AllocError, Global};
use std::marker::Model;

/// A list of rows that grows by one row at a time.
#[derive(Drop)]
pub struct Builder {
    streams: Streams,
    refused: Vec<RefusedRow>,
    count: u64,
}

impl Model for Builder {
    ghost use Rattle.btr_rows.specs.Builder.{BuilderValue};

    ghost Value = { BuilderValue };

    ghost view = { λ b. record { list = record { streams = b.streams; refused = b.refused.items }; count = b.count } };
}

impl Builder {
    /// Makes a builder without a row. It takes no memory.
    pub fn new(alloc: Global) -> Builder
        ensures { result ≡ built_of [] }
    {
        Builder {
            streams: Streams::new(alloc),
            refused: Vec::new(alloc),
            count: 0,
        }
    }

    /// Adds what the next record says. It takes time logarithmic in the number of streams. An `Err` means out of memory.
    pub fn add(&mut self, alloc: Global, said: Result<Row, RowReason>) -> Result<(), AllocError>
        requires { self.old.count + 1 < 2 ^ 64 }
        ensures count { self.new.count ≡ self.old.count + 1 }
        ensures row { (rows : List (Result RowSpec ReasonSpec)) → self.old ≡ built_of rows
            → OnOk result (self.new ≡ built_of (rows ++ said ∷ [])) }
    {
        self.count += 1;
        match said {
            Ok(row) => self.streams.add(alloc, self.count, row),
            Err(reason) => {
                let row = RefusedRow {
                    number: self.count,
                    reason,
                };
                self.refused.push(row)?;
                Ok(())
            }
        }
    }

    /// Returns the list of rows. It takes no memory.
    pub fn into_list(self) -> RowList
        ensures { result ≡ self.list }
    {
        let Builder {
            streams,
            refused,
            count: _,
        } = self;
        RowList::from_parts(streams.into_list(), refused)
    }
}
