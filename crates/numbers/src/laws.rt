ghost use Rattle.numbers.specs.Laws.{FieldLaw};

// What is put into bytes reads back, and what lies apart from it stays.
pub fn fields_stand() -> u8
    ensures { FieldLaw }
{
    0
}
