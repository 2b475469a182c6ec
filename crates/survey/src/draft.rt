// Readings entered into a draft and sealed.
ghost use Rattle.std.specs.Prelude.{◌≡◌, ◌≤◌, length};
ghost use Rattle.survey.specs.Lists.{readings_of};

use panels::draft::Draft;
use panels::reading_list::ReadingList;

// The list of these readings, in their order. The memory has a place for each.
pub(crate) fn sealed<'a, R: Copy>(memory: &'a mut [R], readings: &[R]) -> ReadingList<'a, R>
    requires { (length memory.old ≡ 16) × (length readings.now ≤ 16) }
    ensures { readings_of result ≡ readings.now }
{
    let mut draft = Draft::new(memory);
    for reading in readings {
        draft.enter(*reading).unwrap();
    }
    draft.seal()
}
