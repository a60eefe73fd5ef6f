ghost use Rattle.freelist.specs.Chain.{chain};
ghost use Rattle.freelist.specs.Laws.{TakeIsUncons, EmptyGivesNone, GiveIsCons, OtherWritesLeaveTheList, OneRowIsListed, ListedBlocksAreData};
ghost use Rattle.freelist.specs.Laws.{TakeGivesTheFirst, TakeFromAnEmptyList, GiveListsInFront, WritesBelowLeaveTheList, EmptiedListsNothing, GivingListsAll, RelistingListsExactly, UnclaimedAreEachOnce};

// The laws of the free list: over its pages, and over the bytes of a volume.
pub fn stack_stands() -> u8
    ensures uncons { TakeIsUncons chain }
    ensures none { EmptyGivesNone chain }
    ensures cons { GiveIsCons chain }
    ensures framed { OtherWritesLeaveTheList chain }
    ensures one { OneRowIsListed chain }
    ensures lawful { ListedBlocksAreData chain }
    ensures taken { TakeGivesTheFirst }
    ensures empty { TakeFromAnEmptyList }
    ensures given { GiveListsInFront }
    ensures below { WritesBelowLeaveTheList }
    ensures emptied { EmptiedListsNothing }
    ensures all { GivingListsAll }
    ensures relisted { RelistingListsExactly }
    ensures unclaimed { UnclaimedAreEachOnce }
{
    0
}
