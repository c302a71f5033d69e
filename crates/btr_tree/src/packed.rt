ghost use Rattle.std.specs.Prelude.{◌≡◌, nat_lt};
ghost use Rattle.btr_tree.specs.Packed.{without_address};

use crate::node::Slot;
use btr_base::Agg;
use std::marker::Model;

/// What an inner node keeps of a slot beside its child, in 48 bytes. The least and the greatest value count only if there is
/// a point. It keeps no address.
#[derive(Drop)]
pub(crate) struct Packed {
    sum: i128,
    count: u64,
    least: i64,
    greatest: i64,
    version: u64,
}

impl Model for Packed {
    ghost use Rattle.btr_base.specs.Agg.{IsSummary};
    ghost use Rattle.btr_tree.specs.declared.node.Slot.{Slot};
    ghost use Rattle.btr_tree.specs.Packed.{unpacked};

    ghost Value = { Slot };

    ghost view = { λ p. unpacked p.count p.sum p.least p.greatest p.version };

    ghost invariant = { λ p. IsSummary (unpacked p.count p.sum p.least p.greatest p.version).agg };
}

impl Packed {
    /// The aggregate and the version of a slot.
    pub(crate) fn of(slot: &Slot) -> Packed
        ensures { result ≡ without_address slot.now }
    {
        let agg = &slot.agg;
        let (least, greatest) = match agg.ends {
            Some(ends) => ends,
            None => (0, 0),
        };
        Packed {
            sum: agg.sum,
            count: agg.count,
            least,
            greatest,
            version: slot.version,
        }
    }

    /// Whether the slot has a point.
    pub(crate) fn has_points(&self) -> bool
        ensures { result ≡ nat_lt 0 self.now.agg.count }
    {
        self.count > 0
    }

    /// The slot, without an address.
    pub(crate) fn slot(&self) -> Slot
        ensures { result ≡ self.now }
    {
        let ends = if self.count == 0 {
            None
        } else {
            Some((self.least, self.greatest))
        };
        Slot {
            agg: Agg {
                count: self.count,
                sum: self.sum,
                ends,
            },
            version: self.version,
            child: 0,
        }
    }
}
