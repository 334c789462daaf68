// Sets of operations.
ghost use Rattle.std.specs.Prelude.{◌≡◌, ◌-◌, ◌<◌, IfSome, Decides};
ghost use Rattle.history.specs.Sets.{Has, Within, Empty, Adds, Joins, Meets, Next};
ghost use Rattle.history.specs.Members.{Gives};
ghost use Rattle.std.specs.Iterator.{at_most};

// How many operations a set can name.
const WIDTH: usize = 16;

// A set of operations. It is a 16-bit number, as in an after field: operation i is in it when the binary digit worth 2 to the
// power i is 1.
#[derive(Clone, Copy, Debug, Default, PartialEq, Eq)]
pub struct OpSet {
    bits: u16,
}

impl OpSet {
    // The empty set.
    #[tactic(auto, using(crate::proofs::Membership::none_has))]
    pub fn new() -> OpSet
        ensures { Empty result.bits }
    {
        OpSet { bits: 0 }
    }

    // The set with these binary digits.
    pub fn from_bits(bits: u16) -> OpSet
        ensures { result.bits ≡ bits }
    {
        OpSet { bits }
    }

    // The binary digits of the set.
    pub fn bits(self) -> u16
        ensures { result ≡ self.bits }
    {
        self.bits
    }

    // Whether operation i is in the set.
    #[tactic(auto, using(crate::proofs::Membership::none_past))]
    pub fn contains(self, i: usize) -> bool
        ensures { Decides result (Has self.bits i) }
    {
        i < WIDTH && (self.bits >> i) & 1 == 1
    }

    // The set with operation i too; a number above 15 fits no set and changes nothing.
    #[tactic(auto, using(crate::proofs::Membership::shifted_adds))]
    pub fn insert(self, i: usize) -> OpSet
        ensures { Adds self.bits i result.bits }
    {
        if i < WIDTH {
            OpSet {
                bits: self.bits | (1 << i),
            }
        } else {
            self
        }
    }

    // What is in one set or the other.
    #[tactic(auto, using(crate::proofs::Membership::union_joins))]
    pub fn union(self, other: OpSet) -> OpSet
        ensures { Joins self.bits other.bits result.bits }
    {
        OpSet {
            bits: self.bits | other.bits,
        }
    }

    // What is in both sets.
    #[tactic(auto, using(crate::proofs::Membership::intersection_meets))]
    pub fn intersection(self, other: OpSet) -> OpSet
        ensures { Meets self.bits other.bits result.bits }
    {
        OpSet {
            bits: self.bits & other.bits,
        }
    }

    // Whether the other set has all of this one.
    #[tactic(auto, using(crate::proofs::Membership::within_decides))]
    pub fn is_subset(self, other: OpSet) -> bool
        ensures { Decides result (Within self.bits other.bits) }
    {
        let common = self.bits & other.bits;
        common == self.bits
    }

    // Whether nothing is in the set.
    #[tactic(auto, using(crate::proofs::Membership::empty_decides))]
    pub fn is_empty(self) -> bool
        ensures { Decides result (Empty self.bits) }
    {
        self == OpSet::new()
    }

    // The members, ascending.
    pub fn iter(self) -> Members
        ensures set { result.set ≡ self }
        ensures start { result.from ≡ 0 }
    {
        self.iter_from(0)
    }

    // The lowest member from n on.
    #[tactic(auto, using(crate::proofs::Membership::from_here))]
    fn first_from(self, n: usize) -> Option<usize>
        ensures lowest { Next self.bits n result }
        ensures bound { IfSome result (λ i. i < 16) }
    {
        if n >= WIDTH {
            return None;
        }
        let rest = self.bits >> n;
        if rest == 0 {
            return None;
        }
        Some(n + rest.trailing_zeros() as usize)
    }

    // The members from n on, ascending.
    pub(crate) fn iter_from(self, n: usize) -> Members
        ensures set { result.set ≡ self }
        ensures start { result.from ≡ n }
    {
        Members { set: self, from: n }
    }
}

// The members of a set from a number on, ascending.
#[derive(Clone, Copy, Debug)]
pub struct Members {
    set: OpSet,
    from: usize,
}

impl Iterator for Members {
    type Item = usize;

    ghost next_gives = { Gives };

    ghost remaining = { λ s. at_most (16 - s.from) };

    fn next(&mut self) -> Option<usize> {
        let i = self.set.first_from(self.from)?;
        self.from = i + 1;
        Some(i)
    }
}
