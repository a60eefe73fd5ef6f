ghost use Rattle.std.specs.Prelude.{◌≡◌, ◌/◌, [], ◌∷◌, length, if◌then◌else◌};
ghost use Rattle.disk.specs.Medium.{ran, sector_bytes};
ghost use Rattle.disk.specs.Disks.{serves, answer};
ghost use Rattle.images.specs.Images.{image, tail};

use crate::order::ByteOrder;
use disk::admit::{SECTOR, Sector, admit};
use disk::disk::Disk;
use fault::fault::Fault;
use std::marker::PhantomData;

// An image: the caller's bytes as sectors whose bytes lie in an order O, with endless power. Bytes past the last whole sector stay.
#[derive(Debug, Drop)]
pub struct Image<'a, O> {
    bytes: &'a mut [u8],
    order: PhantomData<O>,
}

impl<'a, O> Image<'a, O> {
    pub fn new(bytes: &'a mut [u8]) -> Image<'a, O>
        ensures is { result.bytes.now ≡ bytes.old }
        ensures named { result.bytes.ghost_name ≡ bytes.entry.ghost_name }
    {
        Image {
            bytes,
            order: PhantomData,
        }
    }

    // The caller's bytes, as they lie.
    pub fn bytes(&self) -> &[u8]
        ensures { result.now ≡ self.now.bytes.now }
    {
        &*self.bytes
    }
}

impl<'a, O: ByteOrder> Image<'a, O> {
    // The whole sectors, as they lie.
    fn sectors(&self) -> &[Sector]
        ensures are { result.now ≡ (image self.now.bytes.now).sectors }
        ensures len { length result.now ≡ length self.now.bytes.now / sector_bytes }
        ensures count { length result.now ≡ length (O.medium_of self.now.bytes.now).sectors }
    {
        self.bytes.as_chunks().0
    }
}

impl<'a, O: ByteOrder> Disk for Image<'a, O> {
    ghost medium = { λ p. O.medium_of p.bytes.now };

    fn count(&self) -> usize {
        self.sectors().len()
    }

    fn read(&self, s: usize, buf: &mut [u8]) -> Result<(), Fault> {
        let sectors = self.sectors();
        admit(buf.len(), s, sectors.len())?;
        buf.copy_from_slice(&sectors[s]);
        O::turn(buf);
        Ok(())
    }

    fn write(&mut self, s: usize, buf: &[u8]) -> Result<(), Fault>
        ensures result { result ≡ answer (length buf.now) s (length (O.medium_of self.old.bytes.now).sectors) }
        ensures after { O.medium_of self.new.bytes.now ≡ (if serves (length buf.now) s (length (O.medium_of self.old.bytes.now).sectors) then ran ((s, buf.now) ∷ []) (O.medium_of self.old.bytes.now) else O.medium_of self.old.bytes.now) }
        ensures rest { tail self.new.bytes.now ≡ tail self.old.bytes.now }
        ensures same { self.new.bytes.ghost_name ≡ self.old.bytes.ghost_name }
    {
        admit(buf.len(), s, self.sectors().len())?;
        // A range, since std says nothing of the bytes after `as_chunks_mut`.
        let sector = &mut self.bytes[SECTOR * s..SECTOR * s + SECTOR];
        sector.copy_from_slice(buf);
        O::turn(sector);
        Ok(())
    }
}
