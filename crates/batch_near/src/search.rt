//! What is searched, and how.
ghost use Rattle.kd_search.specs.Query.{IsQuery};

use kd_frozen::Frozen;
use kd_tree::Tree;
use map_fold::Hits;
use map_items::NoMemory;
use point_geom::Point;
use std::alloc::Global;

/// A tree, or a frozen index.
#[derive(Clone, Copy)]
pub(crate) enum Searched<'a> {
    Tree(&'a Tree),
    Frozen(&'a Frozen),
}

/// The first k points from any place, at most `within` millimetres away.
#[derive(Clone, Copy)]
pub(crate) struct Search<'a> {
    pub(crate) searched: Searched<'a>,
    pub(crate) k: u32,
    pub(crate) within: Option<u64>,
    ghost query: { ∥ IsQuery k within ∥₁ },
}

impl<'a> Search<'a> {
    ghost use Rattle.std.specs.Prelude.{◌≡◌, ◌≤◌, IfOk, IsOk};
    ghost use Rattle.batch_near.specs.Search.{found_by};

    /// What `nearest` finds for the place.
    pub(crate) fn nearest(self, alloc: Global, q: &Point) -> Result<Hits, NoMemory>
        ensures found { IfOk result (λ hits. hits ≡ found_by self.entry q.now) }
        ensures inline { self.entry.k ≤ 16 → IsOk result }
    {
        match self.searched {
            Searched::Tree(tree) => kd_search::nearest(alloc, tree, self.k, q, self.within),
            Searched::Frozen(frozen) => frozen.nearest(alloc, self.k, q, self.within),
        }
    }
}
