ghost use Rattle.std.specs.Prelude.{◌≡◌, ℕ, ◌+◌, ◌^◌, ◌<◌, ◌≤◌};
ghost use Rattle.numbers.specs.Numbers.{num, put_num};
ghost use Rattle.format.specs.Layout.{block_bytes};

use crate::layout::Block;
use numbers::fields;

// A number that has its place in a block.
pub trait Number: Copy {
    // Some are entries of a row, and lie within it.
    ghost IsThere: { Self → Type 0 };

    ghost at_of: { Self → ℕ };

    ghost width_of: { Self → ℕ };

    // The byte at which the number begins.
    fn at(self) -> usize
        requires { IsThere self }
        ensures { result ≡ at_of self };

    // The bytes of the number.
    fn width(self) -> usize
        ensures { result ≡ width_of self };

    ghost within: { (f : Self) → IsThere f → at_of f + width_of f ≤ block_bytes };

    ghost narrow: { (f : Self) → width_of f ≤ 4 };

    fn get(self, block: &Block) -> u32
        requires { IsThere self }
        ensures is { result ≡ num (width_of self) (at_of self) block.now }
        ensures fits { result < 256 ^ width_of self }
    {
        fields::get(block, self.at(), self.width())
    }

    fn put(self, block: &mut Block, v: u32)
        requires there { IsThere self }
        requires small { v < 256 ^ width_of self }
        ensures { block.new ≡ put_num (width_of self) (at_of self) v block.old }
    {
        fields::put(block, self.at(), self.width(), v);
    }
}
