use crate::answer::{Answer, Failure, Need};
use crate::buffers::Buffers;
use crate::held::Held;
use fault::refusal::Refusal;
use images::image::Image;
use images::order::ByteOrder;
use piles::forwarder::Forwarder;
use piles::fuse::Fuse;
use script::command::{Call, Chore, Lent};
use script::digest::{digest, disk_digest};
use script::meter::Meter;
use std::alloc::Global;
use volume::check::check;
use volume::find::find;
use volume::held::{Found, NotCleared, Volume};
use volume::make::make;

// The disk of a script: a meter over a fuse over a forwarder over an image.
type Pile<'d, O> = Meter<Fuse<Forwarder<Image<'d, O>>>>;

// A disk on which lines of a script run, the volume held on it, and the buffers that are lent.
#[derive(Debug, Drop)]
pub struct Session<'a, 'd, O> {
    heap: Global,
    pile: Pile<'d, O>,
    held: Option<Held>,
    lent: &'a mut Buffers,
}

impl<'a, 'd, O: ByteOrder> Session<'a, 'd, O> {
    // A new disk with endless power and no volume held.
    pub fn new(heap: Global, image: Image<'d, O>, lent: &'a mut Buffers) -> Session<'a, 'd, O> {
        Session {
            heap,
            pile: Meter::new(Fuse::new(Forwarder::new(image), u32::MAX)),
            held: None,
            lent,
        }
    }

    // A call under the power that is left: where one of its writes found none, the volume ends and the buffers are blank again.
    pub fn run(&mut self, call: Call) -> Result<Answer, Failure> {
        let power = self.pile.below.left();
        self.pile.restart();
        let answer = self.perform(call);
        if self.pile.asked() > u64::from(power) {
            self.lent.refill();
            self.held = None;
            return Err(Failure::Cut);
        }
        answer
    }

    fn perform(&mut self, call: Call) -> Result<Answer, Failure> {
        match call {
            Call::Make { isize, fsize } => self.make(isize, fsize),
            Call::Find => self.find(),
            Call::Check => self.check(),
            Call::Clear => self.clear(),
            Call::Close => self.close(),
        }
    }

    fn make(&mut self, isize: u32, fsize: u32) -> Result<Answer, Failure> {
        make(
            &mut self.pile,
            isize,
            fsize,
            self.lent.bytes_mut(Lent::Sector),
        )?;
        Ok(Answer::Done)
    }

    fn find(&mut self) -> Result<Answer, Failure> {
        self.held = None;
        let volume = find(&self.pile)?;
        let sizes = volume.geometry();
        self.held = Some(Held::Found(volume));
        Ok(Answer::Sizes(sizes))
    }

    fn check(&mut self) -> Result<Answer, Failure> {
        let mut findings = self.lent.fresh_findings(self.heap)?;
        let list = findings.list.as_mut_slice();
        let scratch = self.lent.bytes_mut(Lent::Scratch);
        // Two arms, as the states are two types: an impl of Volume for both would be longer.
        let verdict = match &self.held {
            Some(Held::Found(volume)) => check(volume, &self.pile, scratch, list)?,
            Some(Held::Clear(volume)) => check(volume, &self.pile, scratch, list)?,
            None => return Err(Failure::Needs(Need::Volume)),
        };
        Ok(Answer::Checked(verdict, findings))
    }

    // The found volume that is held, taken out of the session; another one stays.
    fn take_found(&mut self) -> Result<Found, Failure> {
        match self.held.take() {
            Some(Held::Found(volume)) => Ok(volume),
            other => {
                self.held = other;
                Err(Failure::Needs(Need::Found))
            }
        }
    }

    fn clear(&mut self) -> Result<Answer, Failure> {
        let volume = self.take_found()?;
        let mut findings = self.lent.fresh_findings(self.heap)?;
        let scratch = self.lent.bytes_mut(Lent::Scratch);
        match volume.clear(&self.pile, scratch, findings.list.as_mut_slice()) {
            Ok(volume) => {
                self.held = Some(Held::Clear(volume));
                Ok(Answer::Done)
            }
            Err(NotCleared { volume, fault }) => {
                self.held = Some(Held::Found(volume));
                if fault.refusal == Refusal::NotClear {
                    return Err(Failure::NotClear(fault, findings));
                }
                Err(Failure::Refused(fault))
            }
        }
    }

    fn close(&mut self) -> Result<Answer, Failure> {
        match self.held.take() {
            Some(Held::Clear(volume)) => {
                self.held = Some(Held::Found(volume.close()));
                Ok(Answer::Done)
            }
            other => {
                self.held = other;
                Err(Failure::Needs(Need::Clear))
            }
        }
    }

    // What is no call.
    pub fn serve(&mut self, chore: &Chore) -> Result<Answer, Failure> {
        match chore {
            Chore::Worn(sectors) => self.pile.below.name_worn(sectors.as_slice())?,
            Chore::Power(writes) => self.pile.below.set(*writes),
            Chore::Lend(which, len) => self.lent.lend(self.heap, *which, *len as usize)?,
            Chore::LendFindings(room) => self.lent.lend_findings(*room as usize),
            Chore::Poke(poke) => poke.apply(&mut self.pile)?,
            Chore::Digest => return Ok(Answer::Digest(disk_digest(&self.pile))),
            Chore::Image => {
                let image = self.pile.below.below().below();
                return Ok(Answer::Digest(digest(image.bytes())));
            }
            Chore::Buffers => return Ok(Answer::Digests(self.lent.digests())),
        }
        Ok(Answer::Done)
    }
}
