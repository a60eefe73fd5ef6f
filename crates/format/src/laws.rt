ghost use Rattle.format.specs.Laws.{SplitLaw, SplitExamples, FieldsHaveTheirNames, FieldsArePutByTheirNames};

// A position and its slot and indices determine each other; and the worked examples.
pub fn positions_stand() -> u8
    ensures split { SplitLaw }
    ensures examples { SplitExamples }
{
    0
}

// A number read or put by its field is the one of that name.
pub fn fields_stand() -> u8
    ensures read { FieldsHaveTheirNames }
    ensures put { FieldsArePutByTheirNames }
{
    0
}
