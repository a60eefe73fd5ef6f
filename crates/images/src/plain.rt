ghost use Rattle.images.specs.Images.{image};
ghost use Rattle.images.specs.Orders.{straight_laws};

use crate::image::Image;
use crate::order::ByteOrder;

// Bytes that lie as they are read.
#[derive(Clone, Copy, Debug, PartialEq, Eq, Hash)]
pub struct Straight;

impl ByteOrder for Straight {
    ghost turned = { λ x. x };

    ghost medium_of = { image };

    fn turn(_sector: &mut [u8]) {}

    ghost laws = { straight_laws };
}

// The plain image.
pub type Plain<'a> = Image<'a, Straight>;
