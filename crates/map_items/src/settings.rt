//! The settings of a map.
ghost use Rattle.std.specs.Prelude.{◌≡◌, ◌≤◌};
ghost use Rattle.map_items.specs.Sizes.{AreSizes};

use std::marker::Model;

#[derive(Clone, Copy, Debug, PartialEq, Eq)]
pub struct Settings {
    voxel: u32,
    large: u32,
}

impl Model for Settings {
    ghost use Rattle.map_items.specs.Sizes.{Sizes, AreSizes};

    ghost Value = { Sizes };

    ghost view = { λ s. record { voxel = s.voxel; large = s.large } };

    ghost invariant = { λ s. AreSizes (record { voxel = s.voxel; large = s.large }) };

    ghost inverse = { λ s. record { voxel = s.voxel; large = s.large } };
}

impl Settings {
    /// `voxel` is 1 to 1,000,000 millimetres, and `large` 16 to 1,000,000 nodes.
    pub fn new(voxel: u32, large: u32) -> Settings
        requires { AreSizes (record { voxel = voxel; large = large }) }
        ensures { result ≡ record { voxel = voxel; large = large } }
    {
        Settings { voxel, large }
    }

    /// A voxel's edge, in millimetres.
    pub fn voxel(&self) -> u32
        ensures value { result ≡ self.now.voxel }
        ensures sizes { AreSizes self.now }
    {
        self.voxel
    }

    /// From how many nodes on a subtree is rebuilt while updates go on.
    pub fn large(&self) -> u32
        ensures value { result ≡ self.now.large }
        ensures sizes { AreSizes self.now }
    {
        self.large
    }
}
