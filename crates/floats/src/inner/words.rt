// Rows of words.
ghost use Rattle.std.specs.Prelude.{◌≡◌, ◌+◌, ◌≤◌, length};
ghost use Rattle.sequences.specs.Lists.{pasted};

// Every word of src, into dst from `at` on. By copy_from_slice the library would want memmove of its host.
pub fn paste(src: &[f32], dst: &mut [f32], at: usize)
    requires { at + length src.now ≤ length dst.old }
    ensures { dst.new ≡ pasted dst.old at src.now }
{
    for i in 0..src.len() {
        dst[at + i] = src[i];
    }
}
