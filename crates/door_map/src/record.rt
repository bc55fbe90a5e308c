// What a mapping call came to, told at the C door.
ghost use Rattle.std.specs.Prelude.{◌≡◌};
ghost use Rattle.leaves.specs.Refusal.{answer_with};
ghost use Rattle.door_answers.specs.Answers.{number_in, value_in, damage_in};
ghost use Rattle.door_map.specs.OnRecord.{in_use_values, Told};

use door_answers::DONE;
use door_answers::damage::reason_in;
use leaves::refusal::Refusal;

// Tells how many are in use in the table, the names and the name bytes then, or why the call is refused: `reason` is set by 13 alone.
pub(crate) fn tell(
    recorded: Result<usize, Refusal>,
    names_then: usize,
    name_bytes_then: usize,
    used: &mut usize,
    names: &mut usize,
    name_bytes: &mut usize,
    reason: &mut u64,
) -> u32
    ensures { Told (answer_with (in_use_values names_then name_bytes_then) recorded) used.old names.old name_bytes.old reason.old
        result used.new names.new name_bytes.new reason.new }
{
    match recorded {
        Ok(in_use) => {
            *used = in_use;
            *names = names_then;
            *name_bytes = name_bytes_then;
            DONE
        }
        Err(refusal) => {
            *reason = reason_in(refusal, *reason);
            refusal.number()
        }
    }
}
