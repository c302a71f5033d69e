ghost use Rattle.std.specs.Prelude.{◌≡◌, ℕ, List, [], ◌∷◌, ◌++◌, OnOk};
ghost use Rattle.btr_rows.specs.declared.row.Row.{Row as RowSpec};
ghost use Rattle.btr_rows.specs.Streams.{by_stream};

use crate::list::StreamRows;
use crate::row::{NumberedPoint, Row};
use std::alloc::{AllocError, Global};
use std::collections::BTreeMap;
use std::marker::Model;

/// Rows by their streams, with the place of each id.
#[derive(Drop)]
pub struct Streams {
    list: Vec<StreamRows>,
    places: BTreeMap<u128, usize>,
}

impl Model for Streams {
    ghost use Rattle.std.specs.Prelude.{List};
    ghost use Rattle.std.specs.Ordering.{nat_cmp};
    ghost use Rattle.std.specs.BTreeMap.{get};
    ghost use Rattle.btr_rows.specs.Streams.{StreamValue};
    ghost use Rattle.btr_rows.specs.Places.{stream_ids, ArePlaces};

    ghost Value = { List StreamValue };

    ghost view = { λ s. s.list.items };

    ghost invariant = { λ s. ArePlaces (get nat_cmp s.places) (stream_ids s.list.items) };
}

impl Streams {
    /// Makes a list without a stream. It takes no memory.
    pub fn new(alloc: Global) -> Streams
        ensures { result ≡ [] }
    {
        Streams {
            list: Vec::new(alloc),
            places: BTreeMap::new(alloc),
        }
    }

    /// Adds a row to its stream. A first row of a stream begins it. It takes time logarithmic in the number of streams. An
    /// `Err` means out of memory.
    pub fn add(&mut self, alloc: Global, number: u64, row: Row) -> Result<(), AllocError>
        ensures { (rows : List (ℕ × RowSpec)) → self.old ≡ by_stream rows →
            OnOk result (self.new ≡ by_stream (rows ++ (number, row) ∷ [])) }
    {
        let point = NumberedPoint {
            number,
            point: row.point,
        };
        match self.places.get(&row.id) {
            Some(place) => self.list[*place].push(point),
            None => {
                let stream = StreamRows::begin(alloc, row.id, point)?;
                self.list.reserve(1)?;
                self.places.insert(row.id, self.list.len())?;
                self.list.push_reserved(stream);
                Ok(())
            }
        }
    }

    /// Returns the streams as a list. It takes no memory.
    pub fn into_list(self) -> Vec<StreamRows>
        ensures { result.items ≡ self }
    {
        let Streams { list, places: _ } = self;
        list
    }
}
