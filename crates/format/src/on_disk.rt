ghost use Rattle.std.specs.Prelude.{◌≡◌, ◌<◌, ◌≤◌, [], length, slice_index_or};

use crate::geometry::Geometry;
use crate::layout::Block;
use disk::disk::{Disk, get};
use std::marker::Model;

// A volume on a disk that has room for it.
#[derive(Debug, Drop)]
pub struct OnDisk<'d, D: Disk> {
    disk: &'d D,
    sizes: Geometry,
}

impl<'d, D: Disk> Model for OnDisk<'d, D> {
    ghost use Rattle.std.specs.Prelude.{◌≤◌, length};
    ghost use Rattle.format.specs.Area.{Area};

    ghost Value = { Area };

    ghost view = { λ v. record { sectors = (D.Disk.medium v.disk.now).sectors; sizes = v.sizes } };

    ghost invariant = { λ v. v.sizes.fsize ≤ length (D.Disk.medium v.disk.now).sectors };
}

impl<'d, D: Disk> OnDisk<'d, D> {
    pub fn new(disk: &'d D, sizes: Geometry) -> OnDisk<'d, D>
        requires { sizes.fsize ≤ length (D.Disk.medium disk.now).sectors }
        ensures { result ≡ record { sectors = (D.Disk.medium disk.now).sectors; sizes = sizes } }
    {
        OnDisk { disk, sizes }
    }

    pub fn sizes(&self) -> Geometry
        ensures isize { result.isize ≡ self.now.sizes.isize }
        ensures fsize { result.fsize ≡ self.now.sizes.fsize }
    {
        self.sizes
    }

    // Reads a block of the volume.
    pub fn read(&self, block: u32, bytes: &mut Block)
        requires { block < self.now.sizes.fsize }
        ensures { bytes.new ≡ slice_index_or self.now.sectors block [] }
    {
        get(self.disk, block as usize, bytes);
    }
}
