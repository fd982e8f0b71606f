// Comparisons of whole numbers: what a rule sets against what, and which way it is broken.

ghost use Rattle.std.specs.Prelude.{◌≡◌};
ghost use Rattle.grounds.specs.Comparing.{holds, deciding};

// Which way a comparison goes.
#[derive(Clone, Copy)]
pub enum Way {
    Below,
    Above,
    Same,
    Differs,
}

// Two numbers, and the way that one is set against the other.
#[derive(Clone, Copy)]
pub struct Comparison {
    pub left: u64,
    pub way: Way,
    pub right: u64,
}

impl Comparison {
    // Whether the left number stands to the right one as the comparison says.
    #[tactic(auto, unfolding(crate::specs::Comparing::holds))]
    pub fn holds(self) -> bool
        ensures { result ≡ holds self }
    {
        match self.way {
            Way::Below => self.left < self.right,
            Way::Above => self.right < self.left,
            Way::Same => self.left == self.right,
            Way::Differs => self.left != self.right,
        }
    }
}

// A quotient with its remainder, set against a limit and 0.
#[derive(Clone, Copy)]
pub struct ExactComparison {
    pub quotient: u64,
    pub remainder: u64,
    pub way: Way,
    pub limit: u64,
}

impl ExactComparison {
    // What decides: the quotient, and the remainder only where the quotient equals the limit.
    #[tactic(auto, unfolding(crate::specs::Comparing::deciding))]
    pub fn deciding(self) -> Comparison
        ensures { result ≡ deciding self }
    {
        let way = self.way;
        if self.quotient == self.limit {
            Comparison {
                left: self.remainder,
                way,
                right: 0,
            }
        } else {
            Comparison {
                left: self.quotient,
                way,
                right: self.limit,
            }
        }
    }
}
