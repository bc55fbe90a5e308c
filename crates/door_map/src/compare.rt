// Two tables over time side by side at the C door (RULES, Requests, No. 1): a stretch is 28 bytes.
ghost use Rattle.std.specs.Prelude.{◌≡◌};
ghost use Rattle.map_compare_rules.specs.Memory.{compare_outcome, compared_answer, compared_memory};
ghost use Rattle.door_answers.specs.Answers.{number_in, value_in};

use door_answers::DONE;
use map_compare::compare::{Lent, compare};

// Lays every stretch in which two tables of one name list disagree: 0, 15, 14 or 2; `count` becomes the number of stretches.
#[unsafe(no_mangle)]
pub extern "C" fn desk_compare(
    left: &[u8],
    used: usize,
    right: &[u8],
    other: usize,
    names: usize,
    stretches: &mut [u8],
    count: &mut usize,
) -> u32
    ensures value { result ≡ number_in (compared_answer (compare_outcome left.now used right.now other names stretches.old)) }
    ensures count_after { count.new ≡ value_in count.old 0 (compared_answer (compare_outcome left.now used right.now other names stretches.old)) }
    ensures stretches_after { stretches.new ≡ compared_memory stretches.old (compare_outcome left.now used right.now other names stretches.old) }
{
    let lent = Lent {
        left,
        left_used: used,
        right,
        right_used: other,
        names,
    };
    match compare(lent, stretches) {
        Ok(total) => {
            *count = total;
            DONE
        }
        Err(refusal) => refusal.number(),
    }
}
