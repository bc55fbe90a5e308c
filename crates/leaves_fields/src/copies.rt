// A slice copied over another.
ghost use Rattle.std.specs.Prelude.{◌≡◌, length};

// Copies a slice over another of the same length. By a loop: `copy_from_slice` wants memmove of the C library, which the library for C does
// without.
pub fn copy<T: Copy>(to: &mut [T], from: &[T])
    requires { length to.old ≡ length from.now }
    ensures { to.new ≡ from.now }
{
    for i in 0..from.len() {
        to[i] = from[i];
    }
}
