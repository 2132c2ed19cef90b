ghost use Rattle.std.specs.{Prelude.{◌≡◌, ◌≤◌, ◌<◌, ◌+◌, length, map, IfOk}, Thread.{IsSync}};
ghost use Rattle.kd_search.specs.Query.{IsQuery};
ghost use Rattle.batch_near.specs.{Search.{found_by}, Slabs.{slab_of, AreFilled}};
ghost use Rattle.map_fold.specs.Answers.{nearest_each};
ghost use Rattle.kd_tree.specs.Contents.{contents};

use crate::search::{Search, Searched};
use kd_frozen::Frozen;
use kd_tree::Tree;
use map_fold::{HitLists, Hits};
use map_items::{NoMemory, Points};
use point_geom::Point;
use rayon::prelude::*;
use rayon::{current_num_threads, join_mut};
use std::alloc::Global;
use std::thread::Threads;

// A search takes microseconds, and a thread dozens of them to begin.
const LEAST_PIECE: usize = 128;

// A list of at most 16 hits has them inside itself.
const INLINE: u32 = 16;

// What an index saves one query is what so many of its points cost.
const POINTS_A_QUERY: usize = 6;

// In millimetres of x. After 32 slabs the same come again.
const WIDTH: u64 = 2_048;

const SLABS: u64 = 32;

/// For each query, in order, what `nearest` returns: its first k live points, at most `within` millimetres away. Pieces
/// of at least 128 queries go to as many threads as there are processors; what gets none is searched by the caller's.
/// Up to k = 16 only the lists have to have memory; so many queries that it pays are searched in a frozen index of the
/// tree, if there is memory for it. Above, `NoMemory` comes once the other pieces are searched; and joining the pieces
/// takes about twice the lists' memory, without what is outside a list.
pub fn nearest_each<R: Threads + Sync>(
    rt: &R,
    alloc: Global,
    tree: &Tree,
    k: u32,
    queries: &Points,
    within: Option<u64>,
) -> Result<HitLists, NoMemory>
    requires query { IsQuery k within }
    ensures found { IfOk result (λ lists. lists ≡ nearest_each (contents tree.now) k queries.now within) }
{
    let search = Search {
        searched: Searched::Tree(tree),
        k,
        within,
    };
    if pays_to_freeze(rt, tree, k, queries.len()) {
        if let Ok(lists) = frozen_first(rt, alloc, tree, search, queries) {
            return Ok(lists);
        }
    }
    each(rt, alloc, search, queries)
}

// One thread makes the index, and all of them save time by it.
fn pays_to_freeze<R: Threads>(rt: &R, tree: &Tree, k: u32, queries: usize) -> bool {
    let piece = queries / pieces_of(rt, queries);
    k <= INLINE && tree.counts().live as usize / POINTS_A_QUERY <= piece
}

// The index is dropped before the tree is searched in its place, so that its memory is there again.
fn frozen_first<R: Threads + Sync>(
    rt: &R,
    alloc: Global,
    tree: &Tree,
    search: Search<'_>,
    queries: &Points,
) -> Result<HitLists, NoMemory>
    ensures { IfOk result (λ lists. lists ≡ nearest_each (contents tree.now) search.entry.k queries.now search.entry.within) }
{
    let frozen = Frozen::of(alloc, tree)?;
    let search = Search {
        searched: Searched::Frozen(&frozen),
        k: search.k,
        within: search.within,
    };
    each(rt, alloc, search, queries)
}

/// For each query, in order, what `Frozen::nearest` finds for it: what `nearest_each` finds in a tree whose live items these are.
/// Threads and memory are as there.
pub fn frozen_nearest_each<R: Threads + Sync>(
    rt: &R,
    alloc: Global,
    frozen: &Frozen,
    k: u32,
    queries: &Points,
    within: Option<u64>,
) -> Result<HitLists, NoMemory>
    requires query { IsQuery k within }
    ensures found { IfOk result (λ lists. lists ≡ nearest_each frozen.now k queries.now within) }
{
    let search = Search {
        searched: Searched::Frozen(frozen),
        k,
        within,
    };
    each(rt, alloc, search, queries)
}

fn each<R: Threads + Sync>(
    rt: &R,
    alloc: Global,
    search: Search<'_>,
    queries: &Points,
) -> Result<HitLists, NoMemory>
    ensures { IfOk result (λ lists. lists ≡ map (found_by search.entry) queries.now) }
{
    let queries = queries.as_slice();
    let lists = if search.k <= INLINE && 2 * LEAST_PIECE <= queries.len() {
        in_place(rt, alloc, search, queries)?
    } else {
        in_pieces(rt, alloc, search, queries)?
    };
    Ok(HitLists::from(lists))
}

// Only room for the lists may be refused, no search.
fn in_place<R: Threads + Sync>(
    rt: &R,
    alloc: Global,
    search: Search<'_>,
    queries: &[Point],
) -> Result<Vec<Hits>, NoMemory>
    requires k_to { search.k ≤ 16 }
    ensures { IfOk result (λ lists. lists.items ≡ map (found_by search.entry) queries.now) }
{
    let mut lists = empty_lists(alloc, queries.len())?;
    let pieces = pieces_of(rt, queries.len());
    fill(rt, alloc, search, pieces, queries, lists.as_mut_slice());
    Ok(lists)
}

fn pieces_of<R: Threads>(rt: &R, queries: usize) -> usize
    ensures { 1 ≤ result }
{
    (queries / LEAST_PIECE).clamp(1, current_num_threads(rt))
}

// The calling thread starts the others: each takes its time before it could start another.
fn fill<R: Threads + Sync>(
    rt: &R,
    alloc: Global,
    search: Search<'_>,
    pieces: usize,
    queries: &[Point],
    lists: &mut [Hits],
)
    requires k_to { search.k ≤ 16 }
    requires len { length lists.old ≡ length queries.now }
    ensures { lists.new ≡ map (found_by search.entry) queries.now }
{
    if pieces < 2 {
        fill_piece(alloc, search, queries, lists);
        return;
    }
    let piece = queries.len() / pieces;
    let (these, others) = queries.split_at(piece);
    let (first, rest) = lists.split_at_mut(piece);
    join_mut(
        rt,
        &mut ||
            requires { (search.k ≤ 16) × (length first.now ≡ length these.now) }
            ensures { first.exit.now ≡ map (found_by search.entry) these.entry.now }
        { fill_piece(alloc, search, these, first) },
        &mut ||
            requires { IsSync R.row × (search.k ≤ 16) × (2 ≤ pieces) × (length rest.now ≡ length others.now) }
            ensures { rest.exit.now ≡ map (found_by search.entry) others.entry.now }
        { fill(rt, alloc, search, pieces - 1, others, rest) },
    );
}

// Slab by slab: most of what a search reads is then still in the cache.
fn fill_piece(alloc: Global, search: Search<'_>, queries: &[Point], lists: &mut [Hits])
    requires k_to { search.k ≤ 16 }
    requires len { length lists.old ≡ length queries.now }
    ensures { lists.new ≡ map (found_by search.entry) queries.now }
{
    for slab in 0..SLABS {
        fill_slab(alloc, search, slab, queries, lists);
    }
}

fn fill_slab(alloc: Global, search: Search<'_>, slab: u64, queries: &[Point], lists: &mut [Hits])
    requires k_to { search.k ≤ 16 }
    requires len { length lists.old ≡ length queries.now }
    requires filled { AreFilled (found_by search) slab queries.now lists.old }
    ensures { AreFilled (found_by search.entry) (slab + 1) queries.now lists.new }
{
    for place in 0..queries.len() {
        let query = &queries[place];
        if slab_of(query) == slab {
            lists[place] = search.nearest(alloc, query).unwrap();
        }
    }
}

fn slab_of(query: &Point) -> u64
    ensures { result ≡ slab_of query.now }
{
    query.x().cast_unsigned() / WIDTH % SLABS
}

fn empty_lists(alloc: Global, count: usize) -> Result<Vec<Hits>, NoMemory>
    ensures { IfOk result (λ lists. length lists.items ≡ count) }
{
    let mut lists = Vec::with_capacity(alloc, count)?;
    for _ in 0..count {
        lists.push(Hits::new(alloc))?;
    }
    Ok(lists)
}

fn in_pieces<R: Threads + Sync>(
    rt: &R,
    alloc: Global,
    search: Search<'_>,
    queries: &[Point],
) -> Result<Vec<Hits>, NoMemory>
    ensures { IfOk result (λ lists. lists.items ≡ map (found_by search.entry) queries.now) }
{
    let lists: Result<Vec<Hits>, NoMemory> = queries
        .par_iter()
        .with_min_len(LEAST_PIECE)
        .map(
            move |q: &Point| -> Result<Hits, NoMemory>
                ensures { IfOk result (λ hits. hits ≡ found_by search.entry q.now) }
            { search.nearest(alloc, q) },
        )
        .collect(rt, alloc)?;
    Ok(lists?)
}
