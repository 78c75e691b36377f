// How the twiddles of a stage are packed, and where those of an iteration stand.
ghost use Rattle.std.specs.Prelude.{◌<◌};
ghost use Rattle.packing.specs.Packs.{Packs};

// The iterations of a stage, its radix, and the width that its twiddles are packed for.
#[derive(Clone, Copy)]
pub struct Packing {
    pub iterations: usize,
    pub radix: usize,
    pub width: usize,
    ghost small: { Packs iterations radix width },
}

// Where the twiddles of an iteration stand: the first of them, and how many places apart.
#[derive(Clone, Copy)]
pub struct Lane {
    pub first: usize,
    pub apart: usize,
}

impl Packing {
    ghost use Rattle.packing.specs.Parts.{Lanes};

    // The lane of iteration i. Lanes are worked out here alone.
    pub fn lane(&self, i: usize) -> Lane
        requires { i < 4096 }
        ensures { Lanes self.now.iterations self.now.radix self.now.width i result }
    {
        let each = self.radix - 1;
        if i < self.iterations / self.width * self.width {
            Lane {
                first: i / self.width * (self.width * each) + i % self.width,
                apart: self.width,
            }
        } else {
            Lane {
                first: i * each,
                apart: 1,
            }
        }
    }
}
