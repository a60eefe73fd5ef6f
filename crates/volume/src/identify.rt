ghost use Rattle.std.specs.Prelude.{◌≡◌, ◌<◌, [], length, IfOk, if◌then◌else◌, Ok, Err, slice_index_or};
ghost use Rattle.fault.specs.declared.refusal.Refusal.TheVariants.{NoVolume};
ghost use Rattle.format.specs.Layout.{superblock};
ghost use Rattle.rules.specs.Calls.{is_volume, sizes_in, lookup};
ghost use Rattle.volume.specs.Answers.{looked_up, identified};

use disk::disk::{Disk, get};
use fault::fault::Fault;
use fault::refusal::Refusal;
use format::geometry::Geometry;
use format::layout::{Block, SUPERBLOCK};
use format::number::Number;
use format::on_disk::OnDisk;
use format::superblock::{Field, type_fits};

// The sizes in a superblock on a disk of n sectors, if they and the type are lawful and the volume fits.
fn identify(sb: &Block, n: usize) -> Result<Geometry, Refusal>
    ensures { identified result ≡ (if is_volume sb.now n then Ok (sizes_in sb.now) else Err NoVolume) }
{
    let sizes = Geometry::new(Field::Isize.get(sb), Field::Fsize.get(sb)).ok_or(Refusal::NoVolume)?;
    if type_fits(sb) && sizes.fsize() as usize <= n {
        Ok(sizes)
    } else {
        Err(Refusal::NoVolume)
    }
}

// The volume on a disk; its superblock is left in sb, for the one caller in three that reads it: an answer of both would be a pair that the others take apart.
pub(crate) fn look_up<'d, D: Disk>(d: &'d D, sb: &mut Block) -> Result<OnDisk<'d, D>, Fault>
    ensures answer { looked_up result ≡ lookup (D.Disk.medium d.now).sectors }
    ensures there { IfOk result (λ v. v.sectors ≡ (D.Disk.medium d.now).sectors) }
    ensures buffer { superblock < length (D.Disk.medium d.now).sectors → sb.new ≡ slice_index_or (D.Disk.medium d.now).sectors superblock [] }
{
    let n = d.count();
    let at = SUPERBLOCK as usize;
    if n <= at {
        return Err(Fault::beyond(at));
    }
    get(d, at, sb);
    let sizes = identify(sb, n)?;
    Ok(OnDisk::new(d, sizes))
}
