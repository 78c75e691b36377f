// A sample from two bytes and back, and all samples of a slice.
ghost use Rattle.std.specs.Prelude.{◌≡◌, true, ◌+◌, ◌*◌, ◌≤◌, ◌<◌, length};
ghost use Rattle.sequences.specs.Found.{Found};
ghost use Rattle.sequences.specs.Lists.{pasted};
ghost use Rattle.pcm.specs.Samples.{sample_of, fits as Samples·fits, word_of, samples_at, first_unfit, sample_bytes};

// The f32 of a sample from its two bytes, the lower one first.
fn sample(low: u8, high: u8) -> f32
    ensures { result ≡ sample_of (low + 256 * high) }
{
    f32::from(i16::from_le_bytes([low, high])) / 32768.0
}

// The samples whose bytes stand from a place on. By `chunks_exact` and `zip` a sample costs 11 instructions, and so 7.
pub fn read_samples(bytes: &[u8], from: usize, output: &mut [f32])
    requires { from + 2 * length output.old ≤ length bytes.now }
    ensures { output.new ≡ samples_at bytes.now from (length output.old) }
{
    for (i, x) in output.iter_mut().enumerate() {
        let at = from + 2 * i;
        *x = sample(bytes[at], bytes[at + 1]);
    }
}

// Whether 32,768 times x is a whole number from -32,768 to 32,767. Added to 3 * 2^22 a number of this range becomes whole, and with that taken away
// again it is the same only if it was whole before.
fn fits(x: f32) -> bool
    ensures { result ≡ Samples·fits x }
{
    let v = x * 32768.0;
    if v < -32768.0 {
        return false;
    }
    if v > 32767.0 {
        return false;
    }
    v + 12582912.0 - 12582912.0 == v
}

// The index of the first sample that does not fit.
pub fn first_unfit(xs: &[f32]) -> Option<usize>
    ensures { Found (length xs.now) (first_unfit xs.now) result }
{
    xs.iter().position(|&x| !fits(x))
}

// The two bytes of a sample that fits, as one number: 3 * 2^22 is a multiple of 65,536.
fn word(x: f32) -> u32
    requires { Samples·fits x ≡ true }
    ensures { result ≡ word_of x }
{
    ((x * 32768.0 + 12582912.0) as u32) % 65536
}

// The bytes of samples that fit, from a place on.
pub fn write_samples(xs: &[f32], bytes: &mut [u8], from: usize)
    requires { (from + 2 * length xs.now ≤ length bytes.old) × (length xs.now ≤ first_unfit xs.now) }
    ensures { bytes.new ≡ pasted bytes.old from (sample_bytes xs.now) }
{
    for (i, &x) in xs.iter().enumerate() {
        let v = word(x);
        let at = from + 2 * i;
        bytes[at] = (v % 256) as u8;
        bytes[at + 1] = (v / 256) as u8;
    }
}
