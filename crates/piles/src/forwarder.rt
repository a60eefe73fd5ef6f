ghost use Rattle.std.specs.Prelude.{◌≡◌, ◌+◌, ◌-◌, ◌^◌, ◌<◌, [], length, if◌then◌else◌, Ok, Err};
ghost use Rattle.fault.specs.Refusals.{bad_worn};
ghost use Rattle.piles.specs.Forward.{home, forward, all_new, is_lawful};

use arrayvec::ArrayVec;
use disk::admit::admit;
use disk::disk::Disk;
use fault::fault::Fault;

// The most worn sectors that a forwarder holds.
const MOST_WORN: usize = 16;

// Worn sectors in the order in which they were named.
type Worn = ArrayVec<u32, MOST_WORN>;

// A forwarder over a disk: it keeps worn sectors at the end of the disk below.
#[derive(Clone, Debug, PartialEq, Eq, Hash, Drop)]
pub struct Forwarder<D> {
    below: D,
    worn: Worn,
}

impl<D: Disk> Forwarder<D> {
    // Where sector s of n is kept below: a worn one behind the n, in the order in which they were named. The caller counts the sectors, once for a call.
    fn home_of(&self, n: usize, s: usize) -> usize
        requires { n + length self.now.worn.items < 2 ^ 64 }
        ensures { result ≡ home self.now.worn.items n s }
    {
        self.worn
            .iter()
            .position(|&w| w as usize == s)
            .map_or(s, |j| n + j)
    }
}

impl<D: Disk> Disk for Forwarder<D> {
    ghost medium = { λ f. forward f.worn.items (D.Disk.medium f.below) };

    fn count(&self) -> usize {
        self.below.count().saturating_sub(self.worn.len())
    }

    fn read(&self, s: usize, buf: &mut [u8]) -> Result<(), Fault> {
        let n = self.below.count().saturating_sub(self.worn.len());
        admit(buf.len(), s, n)?;
        self.below.read(self.home_of(n, s), buf)
    }

    fn write(&mut self, s: usize, buf: &[u8]) -> Result<(), Fault> {
        let n = self.below.count().saturating_sub(self.worn.len());
        admit(buf.len(), s, n)?;
        let home = self.home_of(n, s);
        self.below.write(home, buf)
    }
}

// Whether each is below n and none is repeated.
fn all_new(n: usize, worn: &[u32]) -> bool
    ensures { result ≡ all_new n worn.now }
{
    let mut rest = worn;
    while let Some((w, more)) = rest.split_first() {
        if *w as usize >= n || more.contains(w) {
            return false;
        }
        rest = more;
    }
    true
}

// Whether a disk of this count can have these worn sectors.
fn lawful(count: usize, worn: &Worn) -> bool
    ensures { result ≡ is_lawful count worn.now.items }
{
    worn.len() <= count && all_new(count - worn.len(), worn.as_slice())
}

impl<D> Forwarder<D> {
    // A forwarder that has no worn sectors yet.
    pub fn new(below: D) -> Forwarder<D>
        ensures over { result.below ≡ below }
        ensures none { result.worn.items ≡ [] }
    {
        Forwarder {
            below,
            worn: ArrayVec::new(),
        }
    }

    pub fn below(&self) -> &D
        ensures { result.now ≡ self.now.below }
    {
        &self.below
    }
}

impl<D: Disk> Forwarder<D> {
    // Names the worn sectors, in place of those named before; refused, it keeps the old ones.
    pub fn name_worn(&mut self, worn: &[u32]) -> Result<(), Fault>
        ensures result { result ≡ (if is_lawful (length (D.Disk.medium self.old.below).sectors) worn.now then Ok tt else Err bad_worn) }
        ensures list { self.new.worn.items ≡ (if is_lawful (length (D.Disk.medium self.old.below).sectors) worn.now then worn.now else self.old.worn.items) }
        ensures over { self.new.below ≡ self.old.below }
    {
        let mut list = ArrayVec::new();
        if list.try_extend_from_slice(worn).is_err() || !lawful(self.below.count(), &list) {
            return Err(Fault::bad_worn());
        }
        self.worn = list;
        Ok(())
    }
}
