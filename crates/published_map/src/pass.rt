//! What a caller holds.
ghost use Rattle.std.specs.Prelude.{◌≡◌, ◌≤◌, [], length, IfOk, IsOk};
ghost use Rattle.kd_search.specs.Query.{IsQuery};
ghost use Rattle.shown_versions.specs.{Marks.{Grown, IsMade, seen_by_new}, Versions.{IsVersionOf}};
ghost use Rattle.published_map.specs.Answers.{box_reply, near_reply};

use kd_search::{count_in, in_cuboid, nearest};
use map_fold::{BoxReply, NearReply};
use map_items::{MAX_FOUND, NoMemory};
use point_geom::{Cuboid, Point};
use rebuild_parts::Version;
use shown_versions::{MapName, MapReader, Published, read_latest};
use std::alloc::Global;
use std::marker::Model;
use std::sync::ledger::Share;

/// A caller's way to the map. Contracts see its caller, the prefix of the one history that it has seen, and the updates that its
/// caller has made. It keeps the version of what it has seen.
pub struct Pass<L: MapName> {
    pub(crate) caller: u8,
    pub(crate) reader: MapReader<L>,
    pub(crate) kept: Published<L>,
    // The indices of its updates in the history.
    pub(crate) marks: Vec<u64>,
    pub(crate) share: Share<L>,
}

impl<L: MapName> Model for Pass<L> {
    ghost use Rattle.left_right.specs.Sides.{view as seat_view};
    ghost use Rattle.shown_versions.specs.Marks.{Seen, at_places};
    ghost use Rattle.published_map.specs.Held.{IsPass};

    ghost Value = { Seen };

    ghost view = { λ p. record { caller = p.caller; seen = p.kept; mine = at_places p.kept p.marks.items } };

    ghost invariant = { λ p. IsPass p.caller p.kept (seat_view p.reader.place) p.marks.items p.share.parts p.share.amount };
}

// Manual `Drop`: a derived one is proved at every exit of every owner.
impl<L: MapName> Drop for Pass<L> {
    fn drop(self) {
        let Pass {
            caller: _caller,
            reader: _reader,
            kept: _kept,
            marks: _marks,
            share: _share,
        } = self;
    }
}

impl<L: MapName> Pass<L> {
    pub(crate) fn new(
        alloc: Global,
        caller: u8,
        reader: MapReader<L>,
        kept: Published<L>,
        share: Share<L>,
    ) -> Pass<L>
        requires caller_from { 1 ≤ caller }
        requires caller_to { caller ≤ 8 }
        requires empty { kept ≡ [] }
        requires part { share.parts ≡ 1 }
        requires amount { share.amount ≡ 0 }
        ensures { result ≡ seen_by_new caller }
    {
        Pass {
            caller,
            reader,
            kept,
            marks: Vec::new(alloc),
            share,
        }
    }

    pub fn caller(&self) -> u8
        ensures value { result ≡ self.now.caller }
        ensures from { 1 ≤ result }
        ensures to { result ≤ 8 }

        // Its updates are at rising indices of what it has seen.
        ensures own { IsMade self.now.seen self.now }
    {
        self.caller
    }

    pub(crate) fn updates(&self) -> u32
        ensures { result ≡ length self.now.mine }
    {
        self.marks.len() as u32
    }

    pub(crate) fn mark(&self) -> u64
        ensures { result ≡ length self.now.seen }
    {
        self.kept.version().len()
    }

    /// Takes the published version, if one is handed out and can be shared.
    pub fn renew(&mut self)
        ensures { Grown self.old self.new }
    {
        if let Some(shown) = read_latest(&mut self.reader) {
            self.kept = shown;
        }
    }

    /// The version of what it has seen.
    pub fn version(&self) -> &Version
        ensures { IsVersionOf L.voxel self.now.seen result.now }
    {
        self.kept.version()
    }

    /// Renews the version and searches it as `kd_search::nearest` does, at the same cost. On `NoMemory` more may have been seen.
    pub fn nearest(
        &mut self,
        alloc: Global,
        k: u32,
        q: &Point,
        within: Option<u64>,
    ) -> Result<NearReply, NoMemory>
        requires query { IsQuery k within }
        ensures seen { Grown self.old self.new }
        ensures near { IfOk result (λ r. r ≡ near_reply L.voxel self.new.seen k q.now within) }
        ensures inline { k ≤ 16 → IsOk result }
    {
        self.renew();
        let version = self.kept.version();
        let hits = nearest(alloc, version.tree(), k, q, within)?;
        Ok(NearReply {
            mark: version.len(),
            hits,
        })
    }

    /// Renews the version, counts the live points in the box, and lists the first `most` by number, as `kd_search::count_in` and
    /// `kd_search::in_cuboid` do. On `NoMemory` more may have been seen.
    pub fn in_cuboid(&mut self, alloc: Global, c: &Cuboid, most: u32) -> Result<BoxReply, NoMemory>
        requires most_from { 1 ≤ most }
        requires most_to { most ≤ MAX_FOUND }
        ensures seen { Grown self.old self.new }
        ensures inside { IfOk result (λ r. r ≡ box_reply L.voxel self.new.seen c.now most) }
    {
        self.renew();
        let version = self.kept.version();
        let items = in_cuboid(alloc, version.tree(), c, most)?;
        Ok(BoxReply {
            mark: version.len(),
            count: count_in(version.tree(), c),
            items,
        })
    }
}
