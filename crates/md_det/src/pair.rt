// How often a goal may succeed.
ghost use Rattle.std.specs.Prelude.{◌≡◌};
ghost use Rattle.md_det.specs.Bounds.{product, sum, greatest, at_most_one, exceeds, is_many};
ghost use Rattle.md_det.specs.Findings.{number_of};
ghost use Rattle.md_det.specs.Pairs;
ghost use Rattle.md_det.specs.Pairs.{pair_of, det_of, in_turn, alternatives, one_of_two};

use md_hlds::Det;

/// How many solutions a goal has at most.
#[derive(Clone, Copy, Debug, PartialEq, Eq)]
pub enum Bound {
    Zero,
    One,
    Many,
}

/// Whether a goal may fail, and how many solutions it has at most.
#[derive(Clone, Copy, Debug, PartialEq, Eq)]
pub struct Pair {
    pub may_fail: bool,
    pub bound: Bound,
}

impl Bound {
    /// Of two goals in turn.
    pub fn times(self, other: Bound) -> Bound
        ensures { result ≡ product self other }
    {
        match (self, other) {
            (Bound::Zero, _) | (_, Bound::Zero) => Bound::Zero,
            (Bound::One, Bound::One) => Bound::One,
            _ => Bound::Many,
        }
    }

    /// Of two goals of which one after the other is tried.
    pub fn plus(self, other: Bound) -> Bound
        ensures { result ≡ sum self other }
    {
        match (self, other) {
            (Bound::Zero, bound) | (bound, Bound::Zero) => bound,
            _ => Bound::Many,
        }
    }

    /// Of two goals of which only one runs.
    pub fn or(self, other: Bound) -> Bound
        ensures { result ≡ greatest self other }
    {
        if self.is_more_than(other) {
            self
        } else {
            other
        }
    }

    pub fn is_more_than(self, other: Bound) -> bool
        ensures { result ≡ exceeds self other }
    {
        matches!(
            (self, other),
            (Bound::Many, Bound::Zero | Bound::One) | (Bound::One, Bound::Zero)
        )
    }

    /// 0, 1, and 2 for many.
    pub fn number(self) -> u8
        ensures { result ≡ number_of self }
    {
        match self {
            Bound::Zero => 0,
            Bound::One => 1,
            Bound::Many => 2,
        }
    }

    pub fn is_many(self) -> bool
        ensures { result ≡ is_many self }
    {
        matches!(self, Bound::Many)
    }

    /// Of a goal that is cut at its first solution.
    pub fn cut(self) -> Bound
        ensures { result ≡ at_most_one self }
    {
        match self {
            Bound::Zero => Bound::Zero,
            Bound::One | Bound::Many => Bound::One,
        }
    }
}

impl Pair {
    /// It succeeds once.
    pub const SURE: Pair = Pair {
        may_fail: false,
        bound: Bound::One,
    };

    /// It succeeds once or fails.
    pub const UNSURE: Pair = Pair {
        may_fail: true,
        bound: Bound::One,
    };

    /// It fails.
    pub const FAILURE: Pair = Pair {
        may_fail: true,
        bound: Bound::Zero,
    };

    /// It neither fails nor succeeds.
    pub const THROWS: Pair = Pair {
        may_fail: false,
        bound: Bound::Zero,
    };

    /// What a declaration says.
    pub fn of(det: Det) -> Pair
        ensures { result ≡ pair_of det }
    {
        match det {
            Det::Det => Pair {
                may_fail: false,
                bound: Bound::One,
            },
            Det::Semidet => Pair {
                may_fail: true,
                bound: Bound::One,
            },
            Det::Multi => Pair {
                may_fail: false,
                bound: Bound::Many,
            },
            Det::Nondet => Pair {
                may_fail: true,
                bound: Bound::Many,
            },
            Det::Failure => Pair {
                may_fail: true,
                bound: Bound::Zero,
            },
        }
    }

    /// The determinism that says just this.
    pub fn det(self) -> Det
        ensures { result ≡ det_of self.may_fail self.bound }
    {
        match (self.may_fail, self.bound) {
            (_, Bound::Zero) => Det::Failure,
            (false, Bound::One) => Det::Det,
            (true, Bound::One) => Det::Semidet,
            (false, Bound::Many) => Det::Multi,
            (true, Bound::Many) => Det::Nondet,
        }
    }

    /// Of two goals in turn.
    pub fn then(self, other: Pair) -> Pair
        ensures { result ≡ in_turn self other }
    {
        Pair {
            may_fail: self.may_fail || other.may_fail,
            bound: self.bound.times(other.bound),
        }
    }

    /// Of two goals that are tried one after the other.
    pub fn or_else(self, other: Pair) -> Pair
        ensures { result ≡ alternatives self other }
    {
        Pair {
            may_fail: self.may_fail && other.may_fail,
            bound: self.bound.plus(other.bound),
        }
    }

    /// Of two goals of which only one runs.
    pub fn or(self, other: Pair) -> Pair
        ensures { result ≡ one_of_two self other }
    {
        Pair {
            may_fail: self.may_fail || other.may_fail,
            bound: self.bound.or(other.bound),
        }
    }

    /// Of a goal that is cut at its first solution.
    pub fn cut(self) -> Pair
        ensures { result ≡ Pairs.cut self }
    {
        Pair {
            may_fail: self.may_fail,
            bound: self.bound.cut(),
        }
    }

    /// Whether a body of the other pair does no more than this one says.
    pub fn allows(self, body: Pair) -> bool
        ensures { result ≡ Pairs.allows self body }
    {
        (self.may_fail || !body.may_fail) && !body.bound.is_more_than(self.bound)
    }
}
