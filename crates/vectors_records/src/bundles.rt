// A case that is a bundle.
ghost use Rattle.std.specs.Prelude.{◌≡◌, length};

use vectors_merge::front;

// Room for the longest bundle and a byte more.
fn space() -> [u8; 60001]
    ensures { 60001 ≡ length result }
{
    [0; 60001]
}

// Prints the replay of a bundle.
fn show(bundle: &[u8], text: &mut [u8]) {
    match replay_text::replay::replay(bundle, text) {
        Ok(written) => {
            io::write_all(1, front(written as u64, text));
        }
        Err(refusal) => vectors_merge::print_refusal(refusal),
    }
}

// Runs the case at a place: the bundle's length, then its bytes without the zeros at its end.
pub fn run(text: &[u8], at: usize) {
    let length = vectors_text::number_at(text, at);
    let mut bytes = space();
    vectors_text::bytes_at(text, length.next, &mut bytes);
    let mut out = replay_text::replay::text_space();
    show(front(length.value, &bytes), &mut out);
}
