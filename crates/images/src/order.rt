ghost use Rattle.std.specs.Prelude.{◌≡◌, ℕ, List};
ghost use Rattle.disk.specs.Medium.{Medium};
ghost use Rattle.images.specs.Orders.{OrderLaws};

// The order in which the bytes of a sector lie in an image. It means how they are turned on their way, and the disk that an image is.
pub trait ByteOrder {
    ghost turned: { List ℕ → List ℕ };

    ghost medium_of: { List ℕ → Medium };

    // Takes the bytes of a sector from the one order to the other.
    fn turn(sector: &mut [u8])
        ensures { sector.new ≡ turned sector.old };

    ghost laws: { OrderLaws turned medium_of };
}
