ghost use Rattle.std.specs.Prelude.{◌≡◌, true};
ghost use Rattle.btr_hist.specs.Kernel.{is_good};
ghost use Rattle.btr_distil.specs.Sight.{HasInputs, second_tree, sight_between};

use btr_hist::{Reads, Spec};
use btr_tree::Tree;
use std::marker::Model;

/// The inputs of an output at one version each: the versions, and their trees.
#[derive(Drop)]
pub struct InputTrees<'a> {
    /// The versions of the inputs.
    pub reads: Reads,

    /// The tree of the first input.
    pub first: &'a Tree,

    /// The tree of the second input, if there is one.
    pub second: Option<&'a Tree>,
}

/// What a plan is made from: an output, its latest version, the versions of its inputs that this version has read and those that
/// the next one is to read, and the trees of all of these. It borrows the trees, and takes no memory.
#[derive(Drop)]
pub struct Sight<'a> {
    pub(crate) spec: Spec,
    pub(crate) stream: u32,
    pub(crate) base: u64,
    pub(crate) old_reads: Reads,
    pub(crate) new_reads: Reads,
    pub(crate) old_first: &'a Tree,
    pub(crate) new_first: &'a Tree,
    pub(crate) old_second: Option<&'a Tree>,
    pub(crate) new_second: Option<&'a Tree>,
}

impl<'a> Model for Sight<'a> {
    ghost use Rattle.std.specs.Coded.{codes};
    ghost use Rattle.std.specs.Option.{option_map};
    ghost use Rattle.btr_tree.specs.contracts.node.NodeData as node_contract;
    ghost use Rattle.btr_distil.specs.Sight.{SightValue, IsSight};

    ghost Value = { SightValue };

    ghost coded = { Prim.hlevel (codes, node_contract.the_row.coded) };

    ghost view = { λ s. record {
      spec = s.spec;
      stream = s.stream;
      base = s.base;
      old_reads = s.old_reads;
      new_reads = s.new_reads;
      old_first = s.old_first.now;
      new_first = s.new_first.now;
      old_second = option_map (λ t. t.now) s.old_second;
      new_second = option_map (λ t. t.now) s.new_second;
    } };

    ghost invariant = { λ s.
        IsSight s.spec s.old_reads s.new_reads (option_map (λ t. t.now) s.old_second) (option_map (λ t. t.now) s.new_second) };
}

impl<'a> Sight<'a> {
    /// The sight of an output with this spec, at its version `base`: from the inputs that this version has read to those that are to
    /// be read.
    pub fn new(
        spec: Spec,
        stream: u32,
        base: u64,
        old: InputTrees<'a>,
        new: InputTrees<'a>,
    ) -> Sight<'a>
        requires good { is_good spec ≡ true }
        requires shape { HasInputs spec old.reads new.reads (second_tree old) (second_tree new) }
        ensures { result ≡ sight_between spec stream base old.entry new.entry }
    {
        Sight {
            spec,
            stream,
            base,
            old_reads: old.reads,
            new_reads: new.reads,
            old_first: old.first,
            new_first: new.first,
            old_second: old.second,
            new_second: new.second,
        }
    }

    /// The latest version of the output.
    pub fn base(&self) -> u64
        ensures { result ≡ self.now.base }
    {
        self.base
    }
}
