// Complex numbers of two f32.
ghost use Rattle.floats.specs.Complexes.{GivesWords, Adds, Subtracts, Multiplies, Conjugates, TurnsBy};

use std::ops::{Add, Mul, Sub};
use turn::Turn;

// A real and an imaginary part.
#[derive(Clone, Copy)]
pub struct Complex {
    pub re: f32,
    pub im: f32,
}

// The two words of a turn, its cosine and its negated sine: 1, -1 and +0 where it is whole quarters.
impl From<Turn> for Complex {
    ghost from_gives = { GivesWords };

    #[tactic(auto, unfolding(turn::specs::Turns::words_of))]
    fn from(turn: Turn) -> Complex {
        match turn {
            Turn::Zero => Complex { re: 1.0, im: 0.0 },
            Turn::Quarter => Complex { re: 0.0, im: -1.0 },
            Turn::Half => Complex { re: -1.0, im: 0.0 },
            Turn::ThreeQuarter => Complex { re: 0.0, im: 1.0 },
            Turn::General(re, im) => Complex { re, im },
        }
    }
}

impl Add for Complex {
    type Output = Complex;

    ghost add_gives = { Adds };

    fn add(self, o: Complex) -> Complex {
        Complex {
            re: self.re + o.re,
            im: self.im + o.im,
        }
    }
}

impl Sub for Complex {
    type Output = Complex;

    ghost sub_gives = { Subtracts };

    fn sub(self, o: Complex) -> Complex {
        Complex {
            re: self.re - o.re,
            im: self.im - o.im,
        }
    }
}

// In full.
impl Mul for Complex {
    type Output = Complex;

    ghost mul_gives = { Multiplies };

    fn mul(self, o: Complex) -> Complex {
        Complex {
            re: self.re * o.re - self.im * o.im,
            im: self.re * o.im + self.im * o.re,
        }
    }
}

impl Complex {
    pub fn conj(self) -> Complex
        ensures { Conjugates self result }
    {
        Complex {
            re: self.re,
            im: -self.im,
        }
    }

    // Whole quarters exchange and flip signs, any other turn multiplies in full.
    pub fn turned(self, t: Turn) -> Complex
        ensures { TurnsBy t self result }
    {
        match t {
            Turn::Zero => self,
            Turn::Quarter => Complex {
                re: self.im,
                im: -self.re,
            },
            Turn::Half => Complex {
                re: -self.re,
                im: -self.im,
            },
            Turn::ThreeQuarter => Complex {
                re: -self.im,
                im: self.re,
            },
            Turn::General(c, s) => self * Complex { re: c, im: s },
        }
    }
}
