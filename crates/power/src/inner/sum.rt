// The power of bins, whatever their numbers.
ghost use Rattle.std.specs.Prelude.{◌≡◌, ◌+◌, ◌*◌, ◌≤◌, length};
ghost use Rattle.power.specs.Power.{power_from};

use floats::inner::cells::get;

// The sum over so many bins from lo on, ascending.
pub fn sum(spectrum: &[f32], lo: usize, count: usize) -> f32
    requires { (2 * (lo + count) ≤ length spectrum.now) × (length spectrum.now ≤ 8194) }
    ensures { result ≡ power_from spectrum.now lo count }
{
    let mut sum: f32 = 0.0;
    for k in 0..count {
        let z = get(spectrum, lo + k);
        sum += z.re * z.re + z.im * z.im;
    }
    sum
}
