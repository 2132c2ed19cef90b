//! What the words ask for.
ghost use Rattle.std.specs.Prelude.{◌≤◌};
ghost use Rattle.map_items.specs.declared.limits.TheConstants.{MAX_POINTS};

use crate::course::Lie;
use crate::threads::company::Sharing;
use map_fold::MAX_POINTS;

/// What is measured.
#[derive(Clone, Copy)]
pub enum Work {
    /// A tree that was built.
    Built(Ask),
    /// A tree that grows by scans.
    Tree(OnTree),
    /// The state of a map.
    State(OnState),
    /// A map that threads share.
    Threads(Sharing),
}

/// What is done with a tree that grows by scans.
#[derive(Clone, Copy)]
pub enum OnTree {
    /// It grows, and after each tenth scan the slab that is left is deleted.
    Grow(Look),
    /// Once it has grown so, it is asked for the 5 nearest of so many places.
    Ask,
}

/// What is done with the state of a map.
#[derive(Clone, Copy)]
pub enum OnState {
    /// It thins scans, holds its last version, and rebuilds uneven subtrees in its updates.
    Thin(Look),
    /// It takes in as many points at once as may be, which lie as badly as they may: no update rebuilds the tree more than once.
    /// Subtrees from as many nodes on as are asked for aren't rebuilt.
    Add(Lie),
}

// The works by their names.
const WORKS: [(&str, Work); 22] = [
    ("build", Work::Built(Ask::Nothing)),
    ("ask", Work::Built(Ask::Nearest)),
    ("singly", Work::Built(Ask::Singly)),
    ("nears", Work::Built(Ask::AtOnce)),
    ("box", Work::Built(Ask::Cubes)),
    ("clusters", Work::Built(Ask::Clusters)),
    ("lonely", Work::Built(Ask::Lonely)),
    ("after", Work::Tree(OnTree::Ask)),
    ("scans", Work::Tree(OnTree::Grow(Look::Nothing))),
    ("held", Work::Tree(OnTree::Grow(Look::Held))),
    ("turn", Work::Tree(OnTree::Grow(Look::Singly))),
    ("thin", Work::State(OnState::Thin(Look::Nothing))),
    ("odometry", Work::State(OnState::Thin(Look::Singly))),
    ("batches", Work::State(OnState::Thin(Look::AtOnce))),
    ("drawn", Work::State(OnState::Add(Lie::Drawn))),
    ("rising", Work::State(OnState::Add(Lie::Rising))),
    ("equal", Work::State(OnState::Add(Lie::Equal))),
    ("readers", Work::Threads(Sharing::Readers)),
    ("paced", Work::Threads(Sharing::Paced)),
    ("steady", Work::Threads(Sharing::Steady)),
    ("inline", Work::Threads(Sharing::Inline)),
    ("unhelped", Work::Threads(Sharing::Unhelped)),
];

impl Work {
    pub fn named(word: &str) -> Option<Work> {
        for (name, work) in &WORKS {
            if *name == word {
                return Some(*work);
            }
        }
        None
    }
}

/// What is done with a tree that was built.
#[derive(Clone, Copy)]
pub enum Ask {
    /// It is built, and that is all.
    Nothing,
    /// It is asked for the 5 nearest of so many places.
    Nearest,
    /// The same, one after the other, and all answers are kept.
    Singly,
    /// The same, all at once, on all processors.
    AtOnce,
    /// So many cubes of a metre are deleted.
    Cubes,
    /// It is asked for the clusters whose points are so many millimetres apart at most.
    Clusters,
    /// It is asked for the points that have no other so near.
    Lonely,
}

/// What is looked at before each scan.
#[derive(Clone, Copy)]
pub enum Look {
    Nothing,
    /// How many points are live in the version, which is held until the scan is done.
    Held,
    /// The 5 nearest of each of the scan's points.
    Singly,
    /// The same, all at once, on all processors.
    AtOnce,
}

/// How much of it.
#[derive(Clone, Copy)]
pub struct Size {
    /// Of points.
    pub count: u32,
    /// What the last word means to the work.
    pub asked: u32,
    ghost few: { count ≤ MAX_POINTS },
}

impl Size {
    pub fn of(count: &str, asked: &str) -> Option<Size> {
        match (count.parse::<u32>(), asked.parse::<u32>()) {
            (Ok(count), Ok(asked)) if count <= MAX_POINTS => Some(Size { count, asked }),
            _ => None,
        }
    }
}
