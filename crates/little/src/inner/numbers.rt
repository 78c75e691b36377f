// Numbers of two and of four bytes, the lowest first. No other sizes are in use, and one function of any size would need a loop and its proof.
ghost use Rattle.std.specs.Prelude.{◌+◌, ◌≤◌, length};
ghost use Rattle.little.specs.Numbers.{number_at, Reads};

// The number of the two bytes from i on.
pub fn two(bytes: &[u8], i: usize) -> usize
    requires { i + 2 ≤ length bytes.now }
    ensures { Reads (number_at 2 bytes.now i) 65536 result }
{
    bytes[i] as usize + 256 * (bytes[i + 1] as usize)
}

// The number of the four bytes from i on.
pub fn four(bytes: &[u8], i: usize) -> usize
    requires { i + 4 ≤ length bytes.now }
    ensures { Reads (number_at 4 bytes.now i) 4294967296 result }
{
    two(bytes, i) + 65536 * two(bytes, i + 2)
}
