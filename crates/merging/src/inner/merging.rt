// Merging of 2s and 4s into 8s, and the radices in ascending order.
ghost use Rattle.std.specs.Prelude.{◌≡◌, ◌+◌, ◌≤◌, length};
ghost use Rattle.radices.specs.Lists.{padded};
ghost use Rattle.merging.specs.Merging.{tally, total, first_rule, merge, letter, merge_all, sorted};

use crate::Merges;
use radices::Radices;
use radices::inner::lists::count_of;

// How many of each radix there are.
#[derive(Clone, Copy)]
pub struct Tally {
    pub twos: usize,
    pub threes: usize,
    pub fours: usize,
    pub fives: usize,
    pub sevens: usize,
    pub eights: usize,
}

// The rules of merging, in the order in which they are tried.
#[derive(Clone, Copy)]
pub enum Rule {
    A,
    B,
    C,
    D,
}

// What is left when no rule applies, and the rules that were applied.
#[derive(Clone, Copy)]
pub struct Merged {
    pub tally: Tally,
    pub merges: Merges,
}

impl Rule {
    // The letter of a rule.
    pub fn letter(self) -> u8
        ensures { result ≡ letter self }
    {
        match self {
            Rule::A => b'A',
            Rule::B => b'B',
            Rule::C => b'C',
            Rule::D => b'D',
        }
    }
}

impl Tally {
    // How many of each radix a list holds.
    #[tactic(auto, unfolding(crate::specs::Merging::tally))]
    pub fn of(list: &[u8]) -> Tally
        ensures { result ≡ tally list.now }
    {
        Tally {
            twos: count_of(list, 2),
            threes: count_of(list, 3),
            fours: count_of(list, 4),
            fives: count_of(list, 5),
            sevens: count_of(list, 7),
            eights: count_of(list, 8),
        }
    }

    // The first rule that applies.
    #[tactic(auto, using(crate::proofs::Merging::a_needs), unfolding(crate::specs::Merging::first_rule, crate::specs::Merging::applies))]
    pub fn first_rule(self) -> Option<Rule>
        ensures { result ≡ first_rule self }
    {
        if self.fours >= 1 && self.twos >= 1 {
            return Some(Rule::A);
        }
        if self.twos >= 3 {
            return Some(Rule::B);
        }
        if self.fours >= 2 {
            return Some(Rule::C);
        }
        if self.twos >= 2 {
            return Some(Rule::D);
        }
        None
    }

    // What the first rule that applies makes of the radices.
    #[tactic(auto, unfolding(crate::specs::Merging::merge))]
    pub fn merge(self, rule: Rule) -> Tally
        requires { (first_rule self ≡ Some rule) × (total self ≤ 13) }
        ensures { result ≡ merge rule self }
    {
        let mut left = self;
        match rule {
            Rule::A => {
                left.fours -= 1;
                left.twos -= 1;
                left.eights += 1;
            }
            Rule::B => {
                left.twos -= 3;
                left.eights += 1;
            }
            Rule::C => {
                left.fours -= 2;
                left.eights += 1;
                left.twos += 1;
            }
            Rule::D => {
                left.twos -= 2;
                left.fours += 1;
            }
        }
        left
    }

    // The first rule that applies, again and again until none does. The loop is left by its label, a form that the project keeps one of.
    pub fn merge_all(self) -> Merged
        requires { total self ≤ 13 }
        ensures { result ≡ merge_all self }
    {
        let mut tally = self;
        let mut letters = [0u8; 13];
        let mut count = 0;
        'merging: loop {
            let Some(rule) = tally.first_rule() else {
                break 'merging;
            };
            letters[count] = rule.letter();
            count += 1;
            tally = tally.merge(rule);
        }
        Merged {
            tally,
            merges: Merges { count, letters },
        }
    }

    // How many radices there are.
    #[tactic(auto, using(crate::proofs::Merging::length_sorted))]
    pub fn size(self) -> usize
        requires { total self ≤ 13 }
        ensures { result ≡ length (sorted self) }
    {
        self.twos + self.threes + self.fours + self.fives + self.sevens + self.eights
    }

    // The radices in ascending order, unused entries 0.
    pub fn ascending(self) -> [u8; 13]
        requires { total self ≤ 13 }
        ensures { result ≡ padded (sorted self) }
    {
        let mut all = Radices::new();
        all.push_times(2, self.twos);
        all.push_times(3, self.threes);
        all.push_times(4, self.fours);
        all.push_times(5, self.fives);
        all.push_times(7, self.sevens);
        all.push_times(8, self.eights);
        all.entries
    }
}
