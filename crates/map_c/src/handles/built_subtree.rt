//! Subtrees that were rebuilt.
ghost use Rattle.std.specs.Prelude.{◌≡◌, []};

use map_fold::Ops;
use rebuild_core::Built;
use std::alloc::Global;
use std::marker::Model;

/// A rebuilt subtree, for a map with this `large`, and its pending operations, which fit it.
#[derive(Drop)]
pub struct BuiltSubtree {
    pub built: Built,
    pub left: Ops,
    pub large: u32,
}

impl Model for BuiltSubtree {
    ghost use Rattle.map_items.specs.Ops.{Fit};
    ghost use Rattle.kd_tree.specs.{Contents.{contents}, ShapeCode.{coded_shape}};
    ghost use Rattle.map_c.specs.BuiltSubtree.{BuiltSubtreeAt};
    ghost use Rattle.std.specs.Coded.{codes};

    ghost Value = { BuiltSubtreeAt };

    ghost coded = { Prim.hlevel (codes, coded_shape) };

    ghost view = { λ d. record { built = d.built; left = d.left; large = d.large } };

    ghost invariant = { λ d. Fit (contents d.built.tree) d.left };
}

impl BuiltSubtree {
    /// Nothing is pending.
    pub fn new(alloc: Global, built: Built, large: u32) -> BuiltSubtree
        ensures { result ≡ record { built = built; left = []; large = large } }
    {
        let left = Ops::new(alloc);
        BuiltSubtree { built, left, large }
    }
}
