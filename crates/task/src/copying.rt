// Copying a slice.
ghost use Rattle.std.specs.Prelude.{◌≡◌, length};

// What one slice holds into another of its length. Linear. One by one and out of line: std's `copy_from_slice` is a call of memmove, and a loop that the
// backend puts into its caller can become one of memcpy; the archive for C would need these names from outside.
#[inline(never)]
pub fn copy_all<T: Copy>(out: &mut [T], source: &[T])
    requires { length source.now ≡ length out.old }
    ensures { out.new ≡ source.now }
{
    for (i, item) in source.iter().enumerate() {
        out[i] = *item;
    }
}
