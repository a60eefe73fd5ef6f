ghost use Rattle.std.specs.Prelude.{◌≡◌};
ghost use Rattle.format.specs.Sizes.{Sizes};

use fault::fault::Fault;
use format::geometry::Geometry;

// What check and read serve: a volume that was found, clear or not.
pub trait Volume {
    ghost sizes: { Self → Sizes };

    fn geometry(&self) -> Geometry
        ensures { sizes self.now ≡ record { isize = result.isize; fsize = result.fsize } };
}

// The two states of a volume are two types (forms in docs/DECISIONS.md): with one type and a parameter each contract would name the parameter.

// A volume that was found on a disk. It is moved, never copied, and had from find and from close alone.
#[derive(Debug, Drop)]
pub struct Found {
    pub(crate) sizes: Geometry,
}

// A found volume whose check gave status 0. The changing calls need one.
#[derive(Debug, Drop)]
pub struct Clear {
    pub(crate) sizes: Geometry,
}

// A found volume that could not be made clear, and why.
#[derive(Debug, Drop)]
pub struct NotCleared {
    pub volume: Found,
    pub fault: Fault,
}

impl Volume for Found {
    ghost sizes = { λ v. record { isize = v.sizes.isize; fsize = v.sizes.fsize } };

    fn geometry(&self) -> Geometry {
        self.sizes
    }
}

impl Volume for Clear {
    ghost sizes = { λ v. record { isize = v.sizes.isize; fsize = v.sizes.fsize } };

    fn geometry(&self) -> Geometry {
        self.sizes
    }
}
