// The step of a power, its level in tenths of a decibel, and the least power of a level. Steps are what 16 bits hold.
ghost use Rattle.std.specs.Prelude.{◌≡◌, ◌*◌, ◌<◌, ◌≤◌, get_or};
ghost use Rattle.std.specs.Float.Ieee.{of_bits};
ghost use Rattle.std.specs.Float.{binary32};
ghost use Rattle.levels.specs.Parts.{parts};
ghost use Rattle.levels.specs.Levels.{step_of, units_of, level_of, part_at_least, least_step, is_above, lowest};

use crate::inner::parts::PARTS;

// The step of a power: its exponent and the part of the doubling that it is in. 0 below the least normal number and for a NaN:
// it is the lowest step, which is compared and drawn as the others are, and no mark beside them.
pub fn step_of(power: f32) -> u16
    ensures { result ≡ step_of power }
{
    if power >= 1.1754943508222875e-38 {
        return (f32::to_bits(power) / 65536) as u16;
    }
    0
}

// The units of a part of a doubling.
fn part(k: usize) -> usize
    requires { k < 128 }
    ensures { (result ≡ get_or parts k 0) × (result < 30103) }
{
    PARTS[k] as usize
}

// How many units, ten-thousandths of a decibel, a step is above step 0.
fn units_of(step: u16) -> usize
    ensures { (result ≡ units_of step) × (result ≤ 16000000) }
{
    30103 * (step / 128) as usize + part((step % 128) as usize)
}

// The level of a step against that of full scale: tenths of a decibel, 16,000 at full scale, and 0 for step 0.
pub fn level_of(full: u16, step: u16) -> usize
    ensures { (result ≡ level_of full step) × (result ≤ 32000) }
{
    if step == 0 {
        return 0;
    }
    (units_of(step) + 16000500 - units_of(full)) / 1000
}

// The first part of a doubling that is at least so many units, or 128.
fn part_at_least(units: usize) -> usize
    ensures { (result ≡ part_at_least units) × (result ≤ 128) }
{
    PARTS
        .iter()
        .position(|part| *part as usize >= units)
        .unwrap_or(128)
}

// The least step that has a level.
pub fn least_step(full: u16, level: usize) -> u16
    requires { level ≤ 32000 }
    ensures { (result ≡ least_step full level) × (result ≤ 32639) }
{
    let least = 1000 * level + units_of(full);
    if least < 16030603 {
        return 128;
    }
    let needed = least - 16000500;
    (128 * (needed / 30103) + part_at_least(needed % 30103)).min(32639) as u16
}

// The least power of a step.
pub fn power_at(step: u16) -> f32
    requires { step ≤ 32639 }
    ensures { result ≡ of_bits binary32 (step * 65536) }
{
    f32::from_bits(step as u32 * 65536)
}

// Whether the least power of a step is at least 2^-50 and above a whole number of parts of 2^-57.
fn is_above(step: u16, parts: usize) -> bool
    ensures { result ≡ is_above step parts }
{
    let exponent = step / 128;
    if exponent < 77 {
        return false;
    }
    if exponent > 133 {
        return true;
    }
    parts < (128 + step % 128) as usize * (1usize << (exponent - 77))
}

// The lowest level from one on whose least power is above so many parts of 2^-57; 16,000 where it would be full scale or more.
pub fn lowest_above(full: u16, level: usize, parts: usize) -> usize
    requires { level ≤ 16000 }
    ensures { (result ≡ lowest full parts level) × (result ≤ 16000) }
{
    (level..16000)
        .find(|at| is_above(least_step(full, *at), parts))
        .unwrap_or(16000)
}
