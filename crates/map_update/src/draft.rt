//! A tree in work beside watched subtrees. Each operation either crosses them, and is logged, or they are forgotten before.
ghost use Rattle.std.specs.{Prelude.{◌≡◌, ℕ, ◌<◌, ◌≤◌, List, Some, length, IfOk, IfSome, IsNone, ◌↔◌}, List.{remove}};
ghost use Rattle.node_labels.specs.Labels.{keep_tag};
ghost use Rattle.map_items.specs.{Contents.{chosen_by, mark, put}, declared.op.Op.TheVariants.{Mark, Put}};
ghost use Rattle.kd_tree.specs.{Shape.{levels, nodes, numbers}, Criteria.{AllMeetCriteria}, Walk.{times}, Contents.{contents}};
ghost use Rattle.kd_mark.specs.{Refresh.{AreAmong}, Watches.{HaveRoom, paths_in}};
ghost use Rattle.map_update.specs.Draft.{AreSpared, DoesPlainly, IsDraft, IsDraftLeft, IsLawfulDraft, IsDrafted, KeepsDraft, MakesFew};
ghost use Rattle.kd_update.specs.Detached.{PartAt};

use kd_mark::{Watch, rebuilt};
use kd_tree::{MAX_LEVELS, MAX_NODES, Path, Steps, Tree};
use kd_update::{Replaced, Watches, marked_watched, put_watched, replaced};
use map_items::{Choice, NoMemory, Tag};
use point_geom::Point;
use std::alloc::Global;
use std::sync::ledger::Ledger;

/// The tree that an update works on, and the subtrees that are watched meanwhile.
#[derive(Drop)]
pub struct Draft {
    pub tree: Tree,
    /// None stands in another, and each is a path of the tree.
    pub watches: Watches,
}

/// What an operation makes of the draft. Where memory runs out, the draft is dropped.
pub type Drafted = Result<Draft, NoMemory>;

impl Draft {
    // The draft after this action on the chosen items.
    pub(crate) fn marked<L: Ledger>(
        self,
        alloc: Global,
        large: u32,
        choice: &Choice,
        tag: Tag,
        steps: &mut Steps<L>,
    ) -> Drafted
        requires draft { (next : ℕ) × IsLawfulDraft large next self }
        ensures contents { IfOk result (λ w. contents w.tree ≡ mark (contents self.tree) (chosen_by choice.now) tag) }
        ensures draft { (next : ℕ) → KeepsDraft large next next self result }
        ensures drafted { IfOk result (IsDrafted 0 1 self) }
        ensures unrebuilt { DoesPlainly large (Mark choice.now tag) self result }
        ensures nodes_made { MakesFew large (Mark choice.now tag) self steps.old steps.new }
    {
        let draft = self.without_full(alloc, large, steps)?;
        let Draft { tree, mut watches } = draft;
        let tree = marked_watched(alloc, tree, large, choice, tag, &mut watches, steps)?;
        Ok(Draft { tree, watches })
    }

    // The draft after the point was put under the number. A full tree is rebuilt before.
    pub(crate) fn put<L: Ledger>(
        self,
        alloc: Global,
        large: u32,
        number: u32,
        point: Point,
        steps: &mut Steps<L>,
    ) -> Drafted
        requires draft { (next : ℕ) × IsLawfulDraft large next self }
        requires few { length (contents self.tree) < MAX_NODES }
        requires new { times number keep_tag self.tree ≡ 0 }
        ensures contents { IfOk result (λ w. contents w.tree ≡ put (contents self.tree) number point) }
        ensures draft { (next last : ℕ) (ps : List PartAt) → number < next → IsDraft large next last ps self
            → IfOk result (IsDraftLeft large next last ps) }
        ensures drafted { IfOk result (IsDrafted 1 1 self) }
        ensures unrebuilt { DoesPlainly large (Put number point) self result }
        ensures nodes_made { MakesFew large (Put number point) self steps.old steps.new }
    {
        let draft = self.with_room(alloc, large, steps)?;
        let Draft { tree, mut watches } = draft;
        let tree = put_watched(alloc, tree, large, number, point, &mut watches, steps)?;
        Ok(Draft { tree, watches })
    }

    // The draft with room for one more point, and in each log for what that may add.
    fn with_room<L: Ledger>(self, alloc: Global, large: u32, steps: &mut Steps<L>) -> Drafted
        requires draft { (next : ℕ) × IsLawfulDraft large next self }
        requires few { length (contents self.tree) < MAX_NODES }
        ensures contents { IfOk result (λ w. contents w.tree ≡ contents self.tree) }
        ensures draft { (next : ℕ) → KeepsDraft large next next self result }
        ensures low { IfOk result (λ w. levels w.tree < MAX_LEVELS) }
        ensures few { IfOk result (λ w. nodes w.tree < MAX_NODES) }
        ensures lower { IfOk result (λ w. levels w.tree ≤ levels self.tree) }
        ensures fewer { IfOk result (λ w. nodes w.tree ≤ nodes self.tree) }
        ensures room { IfOk result (λ w. HaveRoom w.watches) }
        ensures spared { levels self.tree < MAX_LEVELS → nodes self.tree < MAX_NODES → IfOk result (λ w. AreSpared self.watches w.watches) }
        ensures same { levels self.tree < MAX_LEVELS → nodes self.tree < MAX_NODES → HaveRoom self.watches
            → IfOk result (λ w. w ≡ self) }
        ensures no_nodes_made { levels self.tree < MAX_LEVELS → nodes self.tree < MAX_NODES → HaveRoom self.watches
            → steps.new ≡ steps.old }
    {
        if self.tree.levels() < MAX_LEVELS && self.tree.size() < MAX_NODES {
            return self.without_full(alloc, large, steps);
        }
        let Draft { tree, .. } = self;
        let tree = rebuilt(alloc, tree, steps)?;
        Ok(Draft {
            tree,
            watches: Watches::new(alloc),
        })
    }

    // The draft without the subtrees whose logs have no room for two operations: each is rebuilt where it stands, in order.
    fn without_full<L: Ledger>(self, alloc: Global, large: u32, steps: &mut Steps<L>) -> Drafted
        requires draft { (next : ℕ) × IsLawfulDraft large next self }
        ensures contents { IfOk result (λ w. contents w.tree ≡ contents self.tree) }
        ensures draft { (next : ℕ) → KeepsDraft large next next self result }
        ensures low { IfOk result (λ w. levels w.tree ≤ levels self.tree) }
        ensures few { IfOk result (λ w. nodes w.tree ≤ nodes self.tree) }
        ensures room { IfOk result (λ w. HaveRoom w.watches) }
        ensures spared { IfOk result (λ w. AreSpared self.watches w.watches) }
        ensures same { HaveRoom self.watches → IfOk result (λ w. w ≡ self) }
        ensures no_nodes_made { HaveRoom self.watches → steps.new ≡ steps.old }
    {
        let Some(place) = first_full(self.watches.as_slice()) else {
            return Ok(self);
        };
        let draft = self.without(alloc, large, place, steps)?;
        draft.without_full(alloc, large, steps)
    }

    // The draft without the subtree that is watched at this place of the list: it is rebuilt where it stands. A rebuilt copy is no
    // larger, so the tree has room for it, and all others stay watched.
    fn without<L: Ledger>(
        self,
        alloc: Global,
        large: u32,
        place: usize,
        steps: &mut Steps<L>,
    ) -> Drafted
        requires place { place < length self.watches }
        requires draft { (next : ℕ) × IsLawfulDraft large next self }
        ensures contents { IfOk result (λ w. contents w.tree ≡ contents self.tree) }
        ensures draft { (next : ℕ) → KeepsDraft large next next self result }
        ensures low { IfOk result (λ w. levels w.tree ≤ levels self.tree) }
        ensures few { IfOk result (λ w. nodes w.tree ≤ nodes self.tree) }
        ensures others { IfOk result (λ w. w.watches ≡ remove self.watches place) }
    {
        let Draft { tree, mut watches } = self;
        let _levels = tree.levels();
        let _size = tree.size();
        let Watch { path, .. } = watches.remove(place);
        let others = paths_of(alloc, watches.as_slice())?;
        let Some(node) = tree.subtree_at(&path) else {
            return Ok(Draft { tree, watches });
        };
        let with = rebuilt_copy(alloc, node, steps)?;
        let (path, others) = (&path, others.as_slice());
        let Replaced { tree, .. } = replaced(alloc, tree, large, path, with, others, steps)?;
        Ok(Draft { tree, watches })
    }
}

// What is left in the tree, rebuilt beside it.
fn rebuilt_copy<L: Ledger>(
    alloc: Global,
    tree: &Tree,
    steps: &mut Steps<L>,
) -> Result<Tree, NoMemory>
    ensures contents { IfOk result (λ t. contents t ≡ contents tree.now) }
    ensures numbers { IfOk result (λ t. AreAmong (numbers t) (numbers tree.now)) }
    ensures low { IfOk result (λ t. levels t ≤ levels tree.now) }
    ensures few { IfOk result (λ t. nodes t ≤ nodes tree.now) }
    ensures criteria { IfOk result (λ t. AllMeetCriteria 10 t) }
{
    let copy = tree.copy(alloc, steps)?;
    rebuilt(alloc, copy, steps)
}

// Where the first watch stands whose log has no room for two operations.
fn first_full(watches: &[Watch]) -> Option<usize>
    ensures none { IsNone result ↔ HaveRoom watches.now }
    ensures some { IfSome result (λ i. i < length watches.now) }
    ensures others { IfSome result (λ i. AreSpared watches.now (remove watches.now i)) }
{
    let (first, rest) = watches.split_first()?;
    if first.log.room() < 2 {
        return Some(0);
    }
    let place = first_full(rest)?;
    Some(place + 1)
}

fn paths_of(alloc: Global, watches: &[Watch]) -> Result<Vec<Path>, NoMemory>
    ensures { IfOk result (λ v. v.items ≡ paths_in watches.now) }
{
    let mut paths = Vec::new(alloc);
    for watch in watches {
        paths.push(watch.path)?;
    }
    Ok(paths)
}
