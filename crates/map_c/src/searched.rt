//! What is searched for the nearest points: the tree that a handle shows, or the frozen index that it holds, beside the version of
//! which a box is frozen.
ghost use Rattle.std.specs.Prelude.{◌≡◌, ◌+◌, ◌≤◌, ◌++◌, length, map, take, IfErr, IfOk, IsOk, None, Some};
ghost use Rattle.map_fold.specs.Answers.{nearest};
ghost use Rattle.kd_tree.specs.Contents.{contents};
ghost use Rattle.kd_search.specs.Query.{IsQuery};
ghost use Rattle.map_c.specs.{Answers.{c_hit}, Laid.{IsLaid, searched_items}, declared.handles.refusal.Refusal.TheVariants.{Empty}};

use crate::{Around, Content, Hit, Index, Refusal, frozen_index, shown, write_few, write_hits};
use kd_frozen::{Frozen, Shortlist, nearest_beside};
use kd_tree::Tree;
use map_fold::NoMemory;
use point_geom::Point;
use std::alloc::Global;

/// Items that are searched.
pub trait Searched {
    ghost use Rattle.std.specs.Prelude.{List, Option};
    ghost use Rattle.map_items.specs.declared.item.Item.{Item};
    ghost use Rattle.map_c.specs.declared.handles.content.Content.{Content};

    /// The items, by number.
    ghost items: { Self → List Item };

    /// Those in a handle, if it has any to be searched.
    ghost held_in: { Option Content → Option (List Item) };

    /// What is searched of a content; `Empty`, if nothing is.
    fn in_content(content: &Content) -> Result<&Self, Refusal>
        ensures held { IfOk result (λ s. held_in (Some content.now) ≡ Some (items s.now)) }
        ensures refused { IfErr result (λ r. (r ≡ Empty) × (held_in (Some content.now) ≡ None)) };

    /// Writes the first k live ones by squared distance from q, then by x, y and z, then by number, from a place of the array on, and
    /// returns where they end; within the greatest distance, in millimetres, where one is given.
    fn write_nearest(
        &self,
        alloc: Global,
        k: u32,
        q: &Point,
        within: Option<u64>,
        at: usize,
        hits: &mut [Hit],
    ) -> Result<usize, NoMemory>
        requires query { IsQuery k within }
        requires room { at + k ≤ length hits.old }
        ensures list { IfOk result (λ n. take n hits.new ≡ take at hits.old ++ map c_hit (nearest (items self.now) k q.now within)) }
        ensures count { IfOk result (λ n. n ≡ at + length (nearest (items self.now) k q.now within)) }
        ensures length { length hits.new ≡ length hits.old }
        ensures inline { k ≤ 16 → IsOk result };
}

impl Searched for Tree {
    ghost use Rattle.map_c.specs.Answers.{items_in};

    ghost items = { λ t. contents t };

    ghost held_in = { λ c. items_in c };

    fn in_content(content: &Content) -> Result<&Self, Refusal> {
        let version = shown(content)?;
        Ok(version.tree())
    }

    fn write_nearest(
        &self,
        alloc: Global,
        k: u32,
        q: &Point,
        within: Option<u64>,
        at: usize,
        hits: &mut [Hit],
    ) -> Result<usize, NoMemory> {
        let found = kd_search::nearest(alloc, self, k, q, within)?;
        Ok(write_hits(found.as_slice(), at, hits))
    }
}

impl Searched for Index {
    ghost use Rattle.map_c.specs.Frozen.{frozen_in};

    ghost items = { λ i. i };

    ghost held_in = { λ c. frozen_in c };

    fn in_content(content: &Content) -> Result<&Self, Refusal> {
        frozen_index(content)
    }

    fn write_nearest(
        &self,
        alloc: Global,
        k: u32,
        q: &Point,
        within: Option<u64>,
        at: usize,
        hits: &mut [Hit],
    ) -> Result<usize, NoMemory> {
        let Some(around) = &self.around else {
            return write_frozen(alloc, &self.frozen, k, q, within, at, hits);
        };
        write_beside(alloc, around, &self.frozen, k, q, within, at, hits)
    }
}

// As of all that is live in the version round the box.
fn write_beside(
    alloc: Global,
    around: &Around,
    frozen: &Frozen,
    k: u32,
    q: &Point,
    within: Option<u64>,
    at: usize,
    hits: &mut [Hit],
) -> Result<usize, NoMemory>
    requires query { IsQuery k within }
    requires room { at + k ≤ length hits.old }
    requires laid { IsLaid frozen.now (Some around.now) }
    ensures list { IfOk result (λ n. take n hits.new ≡ take at hits.old ++ map c_hit (nearest (searched_items frozen.now (Some around.now)) k q.now within)) }
    ensures count { IfOk result (λ n. n ≡ at + length (nearest (searched_items frozen.now (Some around.now)) k q.now within)) }
    ensures length { length hits.new ≡ length hits.old }
    ensures inline { k ≤ 16 → IsOk result }
{
    let tree = around.version.tree();
    let found = nearest_beside(alloc, tree, &around.cuboid, frozen, k, q, within)?;
    Ok(write_hits(found.as_slice(), at, hits))
}

// A list of hits that is moved would cost a tenth of the search.
fn write_frozen(
    alloc: Global,
    frozen: &Frozen,
    k: u32,
    q: &Point,
    within: Option<u64>,
    at: usize,
    hits: &mut [Hit],
) -> Result<usize, NoMemory>
    requires query { IsQuery k within }
    requires room { at + k ≤ length hits.old }
    ensures list { IfOk result (λ n. take n hits.new ≡ take at hits.old ++ map c_hit (nearest frozen.now k q.now within)) }
    ensures count { IfOk result (λ n. n ≡ at + length (nearest frozen.now k q.now within)) }
    ensures length { length hits.new ≡ length hits.old }
    ensures inline { k ≤ 16 → IsOk result }
{
    let mut few = Shortlist::new();
    if frozen.nearest_few(k, q, within, &mut few) {
        return Ok(write_few(&few, at, hits));
    }
    let found = frozen.nearest(alloc, k, q, within)?;
    Ok(write_hits(found.as_slice(), at, hits))
}
