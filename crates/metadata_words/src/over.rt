// An outcome laid over a lent list: its words first, 0 in the places that it frees, and the rest as it was.
ghost use Rattle.std.specs.Prelude.{◌≡◌, ◌≤◌, length, take};
ghost use Rattle.metadata_words.specs.Over.{over};

use leaves_fields::copies::copy;

// The first `count` words over a list, of which `used` places were in use. The list is lent by C, with its number in use beside it.
pub fn lay_over(list: &mut [u32], used: usize, words: &[u32], count: usize)
    requires { (used ≤ length list.old) × (count ≤ length list.old) × (count ≤ length words.now) }
    ensures { list.new ≡ over list.old used (take count words.now) }
{
    copy(&mut list[..count], &words[..count]);
    if count < used {
        list[count..used].fill(0);
    }
}
