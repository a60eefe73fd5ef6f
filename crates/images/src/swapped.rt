ghost use Rattle.images.specs.Images.{dump, swapped};
ghost use Rattle.images.specs.Orders.{swapped_laws};

use crate::image::Image;
use crate::order::ByteOrder;

// Bytes in pairs, the two of a pair in exchanged order.
#[derive(Clone, Copy, Debug, PartialEq, Eq, Hash)]
pub struct Exchanged;

impl ByteOrder for Exchanged {
    ghost turned = { swapped };

    ghost medium_of = { dump };

    // std says nothing of the bytes after `chunks_exact_mut` or `as_chunks_mut`, so the pairs are counted.
    fn turn(sector: &mut [u8]) {
        for i in 0..sector.len() / 2 {
            sector.swap(2 * i, 2 * i + 1);
        }
    }

    ghost laws = { swapped_laws };
}

// The swapped dump: as the plain image, but each pair of bytes lies in exchanged order.
pub type Swapped<'a> = Image<'a, Exchanged>;
