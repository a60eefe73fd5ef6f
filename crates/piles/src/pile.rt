ghost use Rattle.std.specs.Prelude.{◌≡◌, length, if◌then◌else◌, Ok, Err};
ghost use Rattle.fault.specs.Refusals.{bad_worn};
ghost use Rattle.piles.specs.Forward.{is_lawful};
ghost use Rattle.piles.specs.Piles.{pile, Reads, Writes};

use crate::forwarder::Forwarder;
use crate::fuse::Fuse;
use disk::disk::Disk;
use fault::fault::Fault;

impl<D: Disk> Fuse<Forwarder<D>> {
    // Names the worn sectors of the forwarder below the fuse: a borrow of what lies below would be a loan in the contract.
    pub fn name_worn(&mut self, worn: &[u32]) -> Result<(), Fault>
        ensures result { result ≡ (if is_lawful (length (D.Disk.medium self.old.below.below).sectors) worn.now then Ok tt else Err bad_worn) }
        ensures list { self.new.below.worn.items ≡ (if is_lawful (length (D.Disk.medium self.old.below.below).sectors) worn.now then worn.now else self.old.below.worn.items) }
        ensures over { self.new.below.below ≡ self.old.below.below }
        ensures holds { self.new.writes ≡ self.old.writes }
    {
        self.below.name_worn(worn)
    }
}

// A read from a fuse over a forwarder over a disk.
pub fn read_pile<D: Disk>(p: &Fuse<Forwarder<D>>, s: usize, b: &mut [u8]) -> Result<(), Fault>
    ensures { Reads (pile D.Disk.medium p.now) s b.old result b.new }
{
    p.read(s, b)
}

// A write to a fuse over a forwarder over a disk.
pub fn write_pile<D: Disk>(p: &mut Fuse<Forwarder<D>>, s: usize, b: &[u8]) -> Result<(), Fault>
    ensures { Writes (pile D.Disk.medium p.old) s b.now result (pile D.Disk.medium p.new) }
{
    p.write(s, b)
}
