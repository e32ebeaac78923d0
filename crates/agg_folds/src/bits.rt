ghost use Rattle.std.specs.Prelude.{◌≡◌};
ghost use Rattle.agg_folds.specs.Kept.{bits_of, both_of};

/// How bits are taken together.
#[derive(Clone, Copy)]
pub(crate) enum BitOp {
    And,
    Or,
    Xor,
}

/// The bits of all numbers that came, and none where none came.
#[derive(Clone, Copy)]
pub(crate) struct Bits {
    pub(crate) op: BitOp,
    pub(crate) number: Option<i64>,
}

#[tactic(auto, unfolding(crate::specs::Kept::bits_of))]
fn bits_of(op: BitOp, a: i64, b: i64) -> i64
    ensures { result ≡ bits_of op a b }
{
    match op {
        BitOp::And => a & b,
        BitOp::Or => a | b,
        BitOp::Xor => a ^ b,
    }
}

/// Two numbers taken together, of which either may be missing.
#[tactic(auto, unfolding(crate::specs::Kept::both_of))]
fn both_of(op: BitOp, a: Option<i64>, b: Option<i64>) -> Option<i64>
    ensures { result ≡ both_of op a b }
{
    match (a, b) {
        (Some(a), Some(b)) => Some(bits_of(op, a, b)),
        (Some(a), None) => Some(a),
        (None, b) => b,
    }
}

impl Bits {
    /// Takes a number more, where there is one.
    pub(crate) fn meet(&mut self, number: Option<i64>)
        ensures met { self.new ≡ record { op = self.old.op; number = both_of self.old.op self.old.number number } }
    {
        self.number = both_of(self.op, self.number, number);
    }
}
