//! What a handle can hold.
ghost use Rattle.std.specs.{Prelude.{◌≡◌, IfOk}, Coded.{codes}};
ghost use Rattle.kd_tree.specs.ShapeCode.{coded_shape};
ghost use Rattle.rebuild_core.specs.Lawful.{StateAt};
ghost use Rattle.rebuild_parts.specs.Seen.{VersionAt};

use crate::handles::built_subtree::BuiltSubtree;
use crate::handles::detached_job::DetachedJob;
use kd_frozen::Frozen;
use map_fold::NoMemory;
use point_geom::Cuboid;
use rebuild_core::{MapState, Version};
use std::alloc::Global;
use std::marker::Model;
use std::sync::Arc;

/// What a handle holds. A handle of one kind that is given for one of another holds nothing of that kind.
#[derive(Drop)]
pub enum Content {
    Map(Map),
    View(View),
    Job(DetachedJob),
    Built(BuiltSubtree),
    Frozen(Index),
    // Only while a call runs: what is to be there isn't yet, or was taken out.
    Nothing,
}

/// A content in memory of its own.
pub fn boxed(alloc: Global, content: Content) -> Result<Box<Content>, NoMemory>
    ensures { IfOk result (λ made. made.value ≡ content) }
{
    Ok(Box::new(alloc, content)?)
}

/// The state of a map.
#[derive(Drop)]
pub struct Map {
    pub state: MapState,
}

impl Model for Map {
    ghost Value = { StateAt };

    ghost coded = { Prim.hlevel (codes, coded_shape) };

    ghost view = { λ k. k.state.state };
}

/// A share of a version.
#[derive(Drop)]
pub struct View {
    pub version: Arc<Version>,
}

impl Model for View {
    ghost Value = { VersionAt };

    ghost coded = { Prim.hlevel (codes, coded_shape) };

    ghost view = { λ s. s.version.value };
}

/// A share of a frozen index: of all that is searched, or of what lies in a cuboid of a version that is searched.
#[derive(Drop)]
pub struct Index {
    pub frozen: Arc<Frozen>,
    pub around: Option<Around>,
}

/// A share of a version of which a cuboid is frozen.
#[derive(Drop)]
pub struct Around {
    pub version: Arc<Version>,
    pub cuboid: Cuboid,
}

impl Model for Index {
    ghost use Rattle.std.specs.Prelude.{List};
    ghost use Rattle.map_items.specs.declared.item.Item.{Item};
    ghost use Rattle.map_c.specs.Laid.{IsLaid, searched_items};

    ghost Value = { List Item };

    ghost view = { λ i. searched_items i.frozen.value i.around };

    ghost invariant = { λ i. IsLaid i.frozen.value i.around };
}

impl Index {
    /// Another share of the same.
    pub fn share(&self) -> Result<Index, NoMemory>
        ensures { IfOk result (λ other. other ≡ self.now) }
    {
        let frozen = Arc::try_clone(&self.frozen)?;
        let around = match &self.around {
            None => None,
            Some(around) => Some(around.share()?),
        };
        Ok(Index { frozen, around })
    }
}

impl Around {
    fn share(&self) -> Result<Around, NoMemory>
        ensures version { IfOk result (λ other. other.version.value ≡ self.now.version.value) }
        ensures cuboid { IfOk result (λ other. other.cuboid ≡ self.now.cuboid) }
    {
        let version = Arc::try_clone(&self.version)?;
        Ok(Around {
            version,
            cuboid: self.cuboid,
        })
    }
}
