ghost use Rattle.std.specs.Prelude.{◌≡◌, length, IfOk};
ghost use Rattle.rebuild_core.specs.{Lawful.{IsLawful, new_state}, StateView.{info_of}};
ghost use Rattle.kd_update.specs.Detached.{part_in};

use kd_tree::{Scratch, Tree};
use map_items::{Entry, NoMemory, Settings};
use rebuild_parts::{Part, PartInfo, Version, part_in};
use std::alloc::Global;
use std::marker::Model;
use std::snapshot::Snapshot;
use std::sync::Arc;

/// The state of a map: it holds the fold of its history, and its version shows that.
pub struct MapState {
    pub(crate) settings: Settings,
    pub(crate) tree: Tree,
    pub(crate) next: u32,
    pub(crate) history: Vec<Entry>,
    pub(crate) version: Arc<Version>,
    // How many entries each caller has, so that no step reads the history.
    pub(crate) made: [u32; 8],
    // In the order of their slots.
    pub(crate) parts: Vec<Part>,
    // The last ticket given, or 0.
    pub(crate) last: u64,
    // Dropped by the next update.
    pub(crate) former: Option<Arc<Version>>,
    // For the nodes of the next update.
    pub(crate) scratch: Scratch,
}

// Manual, as `Job`'s.
impl Drop for MapState {
    fn drop(self) {
        let MapState {
            settings: _settings,
            tree: _tree,
            next: _next,
            history: _history,
            version: _version,
            made: _made,
            parts: _parts,
            last: _last,
            former: _former,
            scratch: _scratch,
        } = self;
    }
}

impl Model for MapState {
    ghost use Rattle.rebuild_core.specs.{Lawful.{IsLawful, Stored}, StateView.{AreMade, spare_of, state_of}};

    ghost Value = { Stored };

    ghost use Rattle.std.specs.Coded.{codes};
    ghost use Rattle.kd_tree.specs.ShapeCode.{coded_shape};

    ghost coded = { Prim.hlevel (codes, coded_shape) };

    ghost view = { λ s. record { state = state_of s; spare = spare_of s } };

    ghost invariant = { λ s. IsLawful (state_of s) × AreMade s.made s.history.items };
}

impl MapState {
    /// The state of a map that holds nothing.
    pub fn new(alloc: Global, settings: Settings) -> Result<MapState, NoMemory>
        ensures { IfOk result (λ s. s.state ≡ new_state settings) }
    {
        let version = Version::empty(alloc)?;
        let _sizes = settings.large();
        Ok(MapState {
            settings,
            tree: Tree::empty(),
            next: 0,
            history: Vec::new(alloc),
            version,
            made: [0; 8],
            parts: Vec::new(alloc),
            last: 0,
            former: None,
            scratch: Scratch::new(alloc),
        })
    }

    /// What queries see.
    pub fn version(&self) -> &Arc<Version>
        ensures { result.now.value ≡ self.now.state.version }
    {
        &self.version
    }

    /// All updates, in order.
    pub fn history(&self) -> &[Entry]
        ensures value { result.now ≡ self.now.state.history }
        ensures lawful { IsLawful self.now.state }
    {
        self.history.as_slice()
    }

    /// The history, for clauses alone. It takes no bytes.
    pub fn told(&self) -> Snapshot<Vec<Entry>>
        ensures { result.value.items ≡ self.now.state.history }
    {
        Snapshot::of(&self.history)
    }

    /// The number of the next point.
    pub fn next(&self) -> u32
        ensures { result ≡ self.now.state.next }
    {
        self.next
    }

    pub fn settings(&self) -> &Settings
        ensures { result.now ≡ self.now.state.settings }
    {
        &self.settings
    }

    /// How many subtrees are detached.
    pub fn count_detached(&self) -> usize
        ensures { result ≡ length self.now.state.parts }
    {
        self.parts.len()
    }

    /// What can be seen of the detached subtree in this slot, from 1 to 4.
    pub fn part(&self, slot: u8) -> Option<PartInfo>
        ensures { result ≡ info_of (part_in slot self.now.state.parts) }
    {
        let part = part_in(self.parts.as_slice(), slot)?;
        Some(PartInfo {
            ticket: part.ticket,
            logged: part.log.len(),
        })
    }
}

fn share<T: Send + Sync>(_x: &T) {}

fn _shares(state: &MapState, version: &Arc<Version>) {
    share(state);
    share(version);
}
