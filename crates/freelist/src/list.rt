ghost use Rattle.std.specs.Prelude.{◌≡◌, ◌==◌, ◌+◌, ◌-◌, ◌^◌, ◌<◌, ◌≤◌, [], ◌∷◌, length, slice_index, slice_index_or, slice_set};
ghost use Rattle.disk.specs.Medium.{ran};
ghost use Rattle.format.specs.Layout.{list_room};
ghost use Rattle.format.specs.Superblock.{at_flock, nfree_of, flock_of};
ghost use Rattle.freelist.specs.Stack.{is_data};
ghost use Rattle.freelist.specs.Bytes.{member_bytes, give_writes, give_bytes, gave_all, unclaimed, emptied, take_bytes, load_bytes, lowered};
ghost use Rattle.freelist.specs.Answers.{take_answer, block_answer, take_left, take_member};

use disk::disk::{Disk, put};
use fault::fault::ListFault;
use format::geometry::Geometry;
use format::layout::{BLOCK_BYTES, Block, LIST_ROOM};
use format::number::Number;
use format::on_disk::OnDisk;
use format::superblock::{AT_FLOCK, AT_FREE, Field, LOCKED, OPEN, set_flock};
use format::table::{AT_ENTRIES, ENTRIES, MemberField};

// Where the entries of a chain member and those of the superblock end.
const END_ENTRIES: usize = AT_ENTRIES + ENTRIES;

const END_FREE: usize = AT_FREE + ENTRIES;

// A block taken, and the chain member that the list then stands in.
#[derive(Clone, Copy, Debug, PartialEq, Eq, Hash)]
pub struct TakenBlock {
    pub block: u32,
    pub member: u32,
}

// The superblock's bytes while the list is worked on: flock is 1, and gets its old value back on every way out.
#[derive(Debug)]
pub struct Locked<'a> {
    buf: &'a mut Block,
    old: u8,
    member: u32,
}

impl Drop for Locked<'_> {
    fn drop(self)
        ensures { self.exit.0.now ≡ slice_set self.entry.buf.now at_flock self.entry.old }
    {
        self.buf[AT_FLOCK] = self.old;
        let Locked {
            buf: _,
            old: _,
            member: _,
        } = self;
    }
}

// Locks the list in the superblock's bytes, lawful or not, so what a give or a take asks of the list is asked there; the list's part there counts as chain member `member`.
pub fn lock(buf: &mut Block, member: u32) -> Locked<'_>
    ensures locked { result.buf.now ≡ slice_set buf.old at_flock 1 }
    ensures held { flock_of result.buf.now ≡ 1 }
    ensures kept { result.old ≡ flock_of buf.old }
    ensures counted { result.member ≡ member }
    ensures named { result.buf.ghost_name ≡ buf.entry.ghost_name }
{
    let old = buf[AT_FLOCK];
    buf[AT_FLOCK] = LOCKED;
    Locked { buf, old, member }
}

impl Locked<'_> {
    // Takes a block; a refusal leaves every byte.
    pub fn take<D: Disk>(&mut self, volume: &OnDisk<'_, D>) -> Result<u32, ListFault>
        requires { self.now.member + 1 < 2 ^ 32 }
        ensures result { result ≡ block_answer (take_bytes volume.now.sizes.isize volume.now.sizes.fsize volume.now.sectors self.entry.now.member self.entry.now.buf.now) }
        ensures after { self.exit.now.buf.now ≡ take_left self.entry.now.buf.now (take_bytes volume.now.sizes.isize volume.now.sizes.fsize volume.now.sectors self.entry.now.member self.entry.now.buf.now) }
        ensures reached { self.exit.now.member ≡ take_member self.entry.now.member (take_bytes volume.now.sizes.isize volume.now.sizes.fsize volume.now.sectors self.entry.now.member self.entry.now.buf.now) }
        ensures old { self.exit.now.old ≡ self.entry.now.old }
        ensures same { self.exit.now.buf.ghost_name ≡ self.entry.now.buf.ghost_name }
    {
        let member = self.member;
        let taken = take_in(volume, self.buf, member)?;
        self.member = taken.member;
        Ok(taken.block)
    }

    // Gives a block.
    pub fn give<D: Disk>(&mut self, d: &mut D, block: u32)
        requires lawful { nfree_of self.now.buf.now ≤ list_room }
        requires there { block < length (D.Disk.medium d.old).sectors }
        ensures wrote { D.Disk.medium d.new ≡ ran (give_writes block self.entry.now.buf.now) (D.Disk.medium d.old) }
        ensures after { self.exit.now.buf.now ≡ give_bytes block self.entry.now.buf.now }
        ensures old { self.exit.now.old ≡ self.entry.now.old }
        ensures counted { self.exit.now.member ≡ self.entry.now.member }
        ensures same { self.exit.now.buf.ghost_name ≡ self.entry.now.buf.ghost_name }
    {
        give_in(d, self.buf, block);
    }
}

// The work itself, on the superblock's bytes. A guard's method says what it leaves while the list is locked, and `take` and `give` what is left once the guard is dropped: three promises, and one body.

// Lays the entries of a full superblock down in a block, which becomes a chain member.
fn write_member<D: Disk>(d: &mut D, sb: &Block, block: u32)
    requires { block < length (D.Disk.medium d.old).sectors }
    ensures { D.Disk.medium d.new ≡ ran ((block, member_bytes sb.now) ∷ []) (D.Disk.medium d.old) }
{
    let mut x = [0; BLOCK_BYTES];
    MemberField::Count.put(&mut x, LIST_ROOM);
    x[AT_ENTRIES..END_ENTRIES].copy_from_slice(&sb[AT_FREE..END_FREE]);
    put(d, block as usize, &x);
}

// Gives a block, in the superblock's bytes.
fn give_in<D: Disk>(d: &mut D, sb: &mut Block, block: u32)
    requires lawful { nfree_of sb.old ≤ list_room }
    requires there { block < length (D.Disk.medium d.old).sectors }
    ensures wrote { D.Disk.medium d.new ≡ ran (give_writes block sb.old) (D.Disk.medium d.old) }
    ensures after { sb.new ≡ give_bytes block sb.old }
{
    let mut n = Field::Nfree.get(sb);
    if n == 0 {
        Field::Free(0).put(sb, 0);
        n = 1;
    } else if n == LIST_ROOM {
        write_member(d, sb, block);
        n = 0;
    }
    Field::Free(n as usize).put(sb, block);
    Field::Nfree.put(sb, n + 1);
    let total = Field::Tfree.get(sb);
    Field::Tfree.put(sb, total.saturating_add(1));
}

// Blocks isize to fsize - 1 are the data blocks.
fn is_data(sizes: Geometry, block: u32) -> bool
    ensures { result ≡ is_data sizes.isize sizes.fsize block }
{
    sizes.data_blocks().contains(&block)
}

// One block fewer is listed. `give_in` adds one in the same way; one function of the change would need its clauses of a closure.
fn lower_total(sb: &mut Block)
    ensures { sb.new ≡ lowered sb.old }
{
    let total = Field::Tfree.get(sb);
    Field::Tfree.put(sb, total.saturating_sub(1));
}

// Takes a block that is a chain member: its count and entries become the superblock's.
fn load_member<D: Disk>(
    volume: &OnDisk<'_, D>,
    sb: &mut Block,
    block: u32,
    member: u32,
) -> Result<TakenBlock, ListFault>
    requires there { block < volume.now.sizes.fsize }
    requires counted { member + 1 < 2 ^ 32 }
    ensures result { result ≡ take_answer (load_bytes (slice_index_or volume.now.sectors block []) block member sb.old) }
    ensures buffer { sb.new ≡ take_left sb.old (load_bytes (slice_index_or volume.now.sectors block []) block member sb.old) }
{
    let mut x = [0; BLOCK_BYTES];
    volume.read(block, &mut x);
    let count = MemberField::Count.get(&x);
    if count > LIST_ROOM {
        return Err(ListFault::Bad { member: member + 1 });
    }
    sb[AT_FREE..END_FREE].copy_from_slice(&x[AT_ENTRIES..END_ENTRIES]);
    Field::Nfree.put(sb, count);
    lower_total(sb);
    Ok(TakenBlock {
        block,
        member: member + 1,
    })
}

// Takes a block, in the superblock's bytes, from the list's part in chain member `member`.
fn take_in<D: Disk>(
    volume: &OnDisk<'_, D>,
    sb: &mut Block,
    member: u32,
) -> Result<TakenBlock, ListFault>
    requires { member + 1 < 2 ^ 32 }
    ensures result { result ≡ take_answer (take_bytes volume.now.sizes.isize volume.now.sizes.fsize volume.now.sectors member sb.old) }
    ensures buffer { sb.new ≡ take_left sb.old (take_bytes volume.now.sizes.isize volume.now.sizes.fsize volume.now.sectors member sb.old) }
{
    let n = Field::Nfree.get(sb);
    if n > LIST_ROOM {
        return Err(ListFault::Bad { member });
    }
    if n == 0 {
        return Err(ListFault::Empty { member });
    }
    let block = Field::Free(n as usize - 1).get(sb);
    if n == 1 && block == 0 {
        return Err(ListFault::Empty { member });
    }
    if !is_data(volume.sizes(), block) {
        return Err(ListFault::Bad { member });
    }
    if n == 1 {
        return load_member(volume, sb, block, member);
    }
    Field::Nfree.put(sb, n - 1);
    lower_total(sb);
    Ok(TakenBlock { block, member })
}

// Takes a block under the lock; a refusal leaves every byte.
pub fn take<D: Disk>(
    volume: &OnDisk<'_, D>,
    sb: &mut Block,
    member: u32,
) -> Result<TakenBlock, ListFault>
    requires { member + 1 < 2 ^ 32 }
    ensures result { result ≡ take_answer (take_bytes volume.now.sizes.isize volume.now.sizes.fsize volume.now.sectors member sb.old) }
    ensures buffer { sb.new ≡ take_left sb.old (take_bytes volume.now.sizes.isize volume.now.sizes.fsize volume.now.sectors member sb.old) }
{
    let mut guard = lock(sb, member);
    let block = guard.take(volume)?;
    Ok(TakenBlock {
        block,
        member: guard.member,
    })
}

// Gives a block under the lock.
pub fn give<D: Disk>(d: &mut D, sb: &mut Block, block: u32)
    requires lawful { nfree_of sb.old ≤ list_room }
    requires there { block < length (D.Disk.medium d.old).sectors }
    ensures wrote { D.Disk.medium d.new ≡ ran (give_writes block sb.old) (D.Disk.medium d.old) }
    ensures after { sb.new ≡ give_bytes block sb.old }
{
    let mut guard = lock(sb, 1);
    guard.give(d, block);
}

// Whether a block's code stands for no claim; a block that has no code is unclaimed.
fn is_unclaimed(codes: &[u8], block: usize) -> bool
    ensures { result ≡ (slice_index codes.now block == 0) }
{
    codes.get(block).is_none_or(|code| *code == 0)
}

// Gives every unclaimed block from lo to hi - 1, the highest first. An empty row of codes says that none is claimed (docs/DECISIONS.md), as make has it.
pub fn give_unclaimed<D: Disk>(d: &mut D, sb: &mut Block, codes: &[u8], lo: usize, hi: usize)
    requires lawful { nfree_of sb.old ≤ list_room }
    requires order { lo ≤ hi }
    requires there { hi ≤ length (D.Disk.medium d.old).sectors }
    requires small { hi ≤ 2 ^ 32 }
    ensures wrote { D.Disk.medium d.new ≡ ran (gave_all (unclaimed codes.now lo (hi - lo)) sb.old).0 (D.Disk.medium d.old) }
    ensures after { sb.new ≡ (gave_all (unclaimed codes.now lo (hi - lo)) sb.old).1 }
{
    for b in (lo..hi).rev() {
        if is_unclaimed(codes, b) {
            give(d, sb, b as u32);
        }
    }
}

// The superblock's list made empty, and its lock opened.
#[tactic(auto, unfolding(crate::specs::Bytes::emptied))]
pub fn empty_list(sb: &mut Block)
    ensures { sb.new ≡ emptied sb.old }
{
    Field::Nfree.put(sb, 1);
    Field::Free(0).put(sb, 0);
    Field::Tfree.put(sb, 0);
    set_flock(sb, OPEN);
}
