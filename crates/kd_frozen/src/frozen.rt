//! The live items of a tree in one array.
ghost use Rattle.std.specs.{Prelude.{◌≡◌, ◌≤◌, ◌==◌, ℕ, [], false, length, true, IfOk, IsOk, OnOk}, declared.option.Option.{Option}};
ghost use Rattle.point_geom.specs.Place.{Place};
ghost use Rattle.map_items.specs.Contents.{live_items};
ghost use Rattle.map_fold.specs.{Answers.{inside_all, nearest}, Nearest.{AreNearest}};
ghost use Rattle.kd_tree.specs.Contents.{AreDistinct, by_number, contents};
ghost use Rattle.kd_search.specs.{Nearest.{IsBound}, Query.{IsQuery}};
ghost use Rattle.kd_frozen.specs.Cells.{items_of};

use crate::cell::Cell;
use crate::close::{fill, search_close};
use crate::gather::{gather, gather_inside};
use crate::hull::{hull_of, is_close};
use crate::lay::lay;
use crate::search::add_from;
use crate::shortlist::Shortlist;
use kd_search::{Found, Query};
use kd_tree::Tree;
use map_fold::Hits;
use map_items::{NoMemory, Tag};
use point_geom::{Cuboid, Extent, Point};
use std::alloc::Global;
use std::marker::Model;

/// The live items of a tree, or of a box of it, as they were when this was made: a list of them by number. It takes 32 bytes an
/// item, holds no node of the tree, and is searched without a lock, by any number of threads at once.
#[derive(Drop)]
pub struct Frozen {
    cells: Vec<Cell>,
    // A box that all are in.
    hull: Extent,
}

// A list of hits takes no memory up to here.
const FEW: usize = 16;

impl Model for Frozen {
    ghost use Rattle.std.specs.Prelude.{List};
    ghost use Rattle.map_items.specs.declared.item.Item.{Item};
    ghost use Rattle.kd_tree.specs.Contents.{AreDistinct, by_number};
    ghost use Rattle.kd_frozen.specs.{Cells.{items_of}, Segments.{AreParted}};
    ghost use Rattle.kd_search.specs.Points.{AreIn};

    ghost Value = { List Item };

    ghost view = { λ f. by_number (items_of f.cells.items) };

    ghost invariant = { λ f. AreParted f.cells.items × AreDistinct (items_of f.cells.items) × AreIn f.hull (items_of f.cells.items) };
}

impl Frozen {
    /// The live items of the tree. Until it is made it takes as much memory again; on `NoMemory` nothing is left of it. n items
    /// take time in the order of n log n, and dropped and suspended ones the time of a walk over them.
    pub fn of(alloc: Global, tree: &Tree) -> Result<Frozen, NoMemory>
        ensures live { IfOk result (λ f. f ≡ live_items (contents tree.now)) }

        // So it is asked in the tree's place.
        ensures asked { IfOk result (λ f. (k : ℕ) (q : Place) (r : Option ℕ) → nearest f k q r ≡ nearest (contents tree.now) k q r) }
    {
        let counts = tree.counts();
        let mut cells = Vec::with_capacity(alloc, counts.live as usize)?;
        gather(tree, Tag::KEEP, &mut cells)?;
        Frozen::laid(alloc, cells.as_mut_slice())
    }

    /// The live items of the tree that are in the cuboid. A subtree that the cuboid doesn't meet is left out. Memory and
    /// `NoMemory` are as of `of`.
    pub fn inside(alloc: Global, tree: &Tree, c: &Cuboid) -> Result<Frozen, NoMemory>
        ensures live { IfOk result (λ f. f ≡ inside_all (contents tree.now) c.now) }
    {
        let _size = tree.size();
        let mut cells = Vec::new(alloc);
        gather_inside(tree, Tag::KEEP, c, &mut cells)?;
        Frozen::laid(alloc, cells.as_mut_slice())
    }

    /// How many items there are.
    pub fn len(&self) -> usize
        ensures { result ≡ length self.now }
    {
        self.cells.len()
    }

    /// Whether there is none.
    pub fn is_empty(&self) -> bool
        ensures { result ≡ (length self.now == 0) }
    {
        self.len() == 0
    }

    /// The first k items by squared distance from q, in squared millimetres, then by x, y and z, then by number; within the
    /// greatest distance, in millimetres, where one is given. It takes no memory for k up to 16.
    pub fn nearest(
        &self,
        alloc: Global,
        k: u32,
        q: &Point,
        within: Option<u64>,
    ) -> Result<Hits, NoMemory>
        requires query { IsQuery k within }
        ensures found { IfOk result (λ hits. hits ≡ nearest self.now k q.now within) }
        ensures nearest { IfOk result (AreNearest self.now k q.now within) }
        ensures inline { k ≤ 16 → IsOk result }
    {
        let query = Query::new(k, q, within);
        let mut found = query.start(alloc);
        self.search(&query, &mut found)?;
        Ok(found.hits)
    }

    /// The same for k up to 16, into a list without a hit. It is false, and nothing is searched, for a greater k, and where q is so
    /// far from some item that the square of that has more than 64 bits.
    pub fn nearest_few(&self, k: u32, q: &Point, within: Option<u64>, hits: &mut Shortlist) -> bool
        requires query { IsQuery k within }
        requires none { hits.old ≡ [] }
        ensures found { result ≡ true → hits.new ≡ nearest self.now k q.now within }
        ensures nearest { result ≡ true → AreNearest self.now k q.now within hits.new }
        ensures same { result ≡ false → hits.new ≡ hits.old }
    {
        let query = Query::new(k, q, within);
        let cells = self.cells.as_slice();
        if query.k <= FEW && is_close(&self.hull, &query.point) {
            let _bound = fill(cells, &query, hits, query.reach());
            return true;
        }
        false
    }

    /// Puts the hits where there are none yet.
    pub(crate) fn search(&self, query: &Query, found: &mut Found) -> Result<(), NoMemory>
        requires none { found.old.hits ≡ [] }
        requires bound { IsBound query.now.k query.now.within found.old.hits found.old.bound }
        ensures bound { OnOk result (IsBound query.now.k query.now.within found.new.hits found.new.bound) }
        ensures found { OnOk result (found.new.hits ≡ nearest self.now query.now.k query.now.point query.now.within) }
        ensures nearest { OnOk result (AreNearest self.now query.now.k query.now.point query.now.within found.new.hits) }
        ensures inline { query.now.k ≤ 16 → IsOk result }
    {
        let cells = self.cells.as_slice();
        if query.k <= FEW && is_close(&self.hull, &query.point) {
            search_close(cells, query, found);
            return Ok(());
        }
        add_from(cells, query, found)
    }

    // Of cells in any order, which it moves.
    fn laid(alloc: Global, cells: &mut [Cell]) -> Result<Frozen, NoMemory>
        requires { AreDistinct (items_of cells.old) }
        ensures { IfOk result (λ f. f ≡ by_number (items_of cells.old)) }
    {
        let mut laid = Vec::with_capacity(alloc, cells.len())?;
        lay(cells, &mut laid)?;
        let hull = hull_of(laid.as_slice());
        Ok(Frozen { cells: laid, hull })
    }
}
