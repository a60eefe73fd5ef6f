ghost use Rattle.std.specs.Prelude.{◌≡◌};
ghost use Rattle.piles.specs.Forward.{ForwardLaw};
ghost use Rattle.piles.specs.Piles.{pile, plain_pile, swapped_pile};

use disk::disk::Disk;
use images::plain::Plain;
use images::swapped::Swapped;

// Lawful worn sectors are kept at the end below in their order, all others where they were.
pub fn forward_stands() -> u8
    ensures { ForwardLaw }
{
    0
}

// A pile means what `pile` says over the plain image and over the swapped dump.
pub fn piles_stand() -> u8
    ensures plain { pile ⟦<Plain<'static> as Disk>⟧.medium ≡ plain_pile }
    ensures swapped { pile ⟦<Swapped<'static> as Disk>⟧.medium ≡ swapped_pile }
{
    0
}
