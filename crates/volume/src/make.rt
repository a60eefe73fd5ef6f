ghost use Rattle.std.specs.Prelude.{◌≡◌, ◌+◌, ◌-◌, ◌<◌, ◌≤◌, [], ◌∷◌, ◌++◌, length};
ghost use Rattle.disk.specs.Medium.{ran};
ghost use Rattle.format.specs.Layout.{superblock, first_list_block};
ghost use Rattle.rules.specs.Make.{root_list_block, list_block, list_writes, root_block, bare_superblock, new_list, make_writes, make_answer, make_rule, make_buffer};
ghost use Rattle.rules.specs.Promises.{StartsARun};
ghost use Rattle.volume.specs.Answers.{make_says};

use disk::disk::{Disk, put};
use fault::fault::Fault;
use fault::refusal::Refusal;
use format::geometry::Geometry;
use format::inode::{Inode, Part};
use format::layout::{BLOCK_BYTES, Block, FIRST_LIST_BLOCK, SUPERBLOCK};
use format::number::Number;
use format::superblock::{Field, MAGIC, TYPE};
use freelist::list::{empty_list, give_unclaimed};
use numbers::fields;

// The root directory: its inode, mode, links and size.
const ROOT: u32 = 2;

const ROOT_MODE: u32 = 0x41ED;

const ROOT_LINKS: u32 = 2;

const ROOT_SIZE: u32 = 32;

// A directory card has a number of two bytes, and a name after it.
const CARD: usize = 16;

const AT_NAME: usize = 2;

const DOT: u8 = 0x2E;

// The first block of the i-list: the root's inode, which names the first data block, and else zeros.
fn root_list_block(isize: u32) -> Block
    requires { isize < 65536 }
    ensures { result ≡ root_list_block isize }
{
    let root = Inode::new(ROOT);
    let mut block = [0; BLOCK_BYTES];
    root.part(Part::Mode).put(&mut block, ROOT_MODE);
    root.part(Part::Nlink).put(&mut block, ROOT_LINKS);
    root.part(Part::Size).put(&mut block, ROOT_SIZE);
    root.part(Part::Slot(0)).put(&mut block, isize);
    block
}

// The root's block: its two cards, of one dot and of two, and else zeros. A function over a name would need a loop and a definition for it.
#[tactic(auto, unfolding(rules::specs::Make::root_block, freelist::specs::Bytes::zeros))]
fn root_block() -> Block
    ensures { result ≡ root_block }
{
    let mut block = [0; BLOCK_BYTES];
    fields::put(&mut block, 0, AT_NAME, ROOT);
    block[AT_NAME] = DOT;
    fields::put(&mut block, CARD, AT_NAME, ROOT);
    block[CARD + AT_NAME] = DOT;
    block[CARD + AT_NAME + 1] = DOT;
    block
}

// The superblock before any block is listed: sizes, unused inodes, magic number and type, and else zeros.
#[tactic(auto, unfolding(rules::specs::Make::bare_superblock, freelist::specs::Bytes::zeros))]
fn bare_superblock(sizes: Geometry) -> Block
    ensures { result ≡ bare_superblock sizes.isize sizes.fsize }
{
    let mut sb = [0; BLOCK_BYTES];
    Field::Isize.put(&mut sb, sizes.isize());
    Field::Fsize.put(&mut sb, sizes.fsize());
    Field::Tinode.put(&mut sb, sizes.inodes() - 2);
    Field::Magic.put(&mut sb, MAGIC);
    Field::VolumeType.put(&mut sb, TYPE);
    sb
}

// Block n of the i-list, from 0: the first one holds the root's inode.
fn list_block(isize: u32, n: usize) -> Block
    requires { isize < 65536 }
    ensures { result ≡ list_block isize n }
{
    if n == 0 {
        root_list_block(isize)
    } else {
        [0; BLOCK_BYTES]
    }
}

// Writes the i-list, the lowest block first. Its blocks are numbered from 0, as in the definition of what is written.
fn write_list<D: Disk>(d: &mut D, sizes: Geometry)
    requires { sizes.fsize ≤ length (D.Disk.medium d.old).sectors }
    ensures { D.Disk.medium d.new ≡ ran (list_writes sizes.isize (sizes.isize - first_list_block)) (D.Disk.medium d.old) }
{
    let first = FIRST_LIST_BLOCK as usize;
    let isize = sizes.isize();
    for n in 0..isize as usize - first {
        put(d, first + n, &list_block(isize, n));
    }
}

// Writes the root's block, the first data block.
fn write_root<D: Disk>(d: &mut D, sizes: Geometry)
    requires { sizes.fsize ≤ length (D.Disk.medium d.old).sectors }
    ensures { D.Disk.medium d.new ≡ ran ((sizes.isize, root_block) ∷ []) (D.Disk.medium d.old) }
{
    put(d, sizes.isize() as usize, &root_block());
}

// Lists every data block but the root's as free and writes the superblock, which stays in sb.
fn write_free_list<D: Disk>(d: &mut D, sizes: Geometry, sb: &mut Block)
    requires { sizes.fsize ≤ length (D.Disk.medium d.old).sectors }
    ensures wrote { D.Disk.medium d.new ≡ ran ((new_list sizes.isize sizes.fsize).0 ++ ((superblock, (new_list sizes.isize sizes.fsize).1) ∷ [])) (D.Disk.medium d.old) }
    ensures buffer { sb.new ≡ (new_list sizes.isize sizes.fsize).1 }
{
    *sb = bare_superblock(sizes);
    empty_list(sb);
    give_unclaimed(
        d,
        sb,
        &[],
        sizes.isize() as usize + 1,
        sizes.fsize() as usize,
    );
    put(d, SUPERBLOCK as usize, sb);
}

// Makes a volume of these sizes on a disk that has room for it.
fn lay_volume<D: Disk>(d: &mut D, sizes: Geometry, sb: &mut Block)
    requires { sizes.fsize ≤ length (D.Disk.medium d.old).sectors }
    ensures wrote { D.Disk.medium d.new ≡ ran (make_writes sizes.isize sizes.fsize) (D.Disk.medium d.old) }
    ensures buffer { sb.new ≡ (new_list sizes.isize sizes.fsize).1 }
{
    write_list(d, sizes);
    write_root(d, sizes);
    write_free_list(d, sizes, sb);
}

// Makes a volume: i-list, root directory, free list, superblock. Refused with 4, then 5 (the last sector), then 3 (the sector buffer).
pub fn make<D: Disk>(d: &mut D, isize: u32, fsize: u32, buffer: &mut [u8]) -> Result<(), Fault>
    ensures wrote { D.Disk.medium d.new ≡ ran (make_rule isize fsize (length buffer.old) (D.Disk.medium d.old).sectors).0 (D.Disk.medium d.old) }
    ensures answer { make_says result ≡ make_answer isize fsize (length buffer.old) (length (D.Disk.medium d.old).sectors) }
    ensures buffer { buffer.new ≡ make_buffer isize fsize (make_answer isize fsize (length buffer.old) (length (D.Disk.medium d.old).sectors)) buffer.old }
    ensures runs { StartsARun (record { isize = isize; fsize = fsize }) (length buffer.old) (D.Disk.medium d.old) (make_says result) (D.Disk.medium d.new) }
{
    let sizes = Geometry::new(isize, fsize).ok_or(Refusal::MakeSizes)?;
    if d.count() < fsize as usize {
        return Err(Fault::beyond(fsize as usize - 1));
    }
    let sb = buffer.as_mut_array().ok_or(Refusal::BufferSize)?;
    lay_volume(d, sizes, sb);
    Ok(())
}
