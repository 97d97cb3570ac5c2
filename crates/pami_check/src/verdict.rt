//! What a checker answers.

use pami_frac::Refused;

/// What is asked of a certificate. Each condition speaks of one column, of one row, or of the certificate as a whole.
#[derive(Clone, Copy, Debug, PartialEq, Eq)]
pub enum Condition {
    /// A value is within its bounds; a direction leads out of none of them.
    Bound,
    /// The value of a row is the sum over its columns.
    Row,
    /// A reduced cost is the cost of its column without the combination of the rows.
    Reduced,
    /// A value stands at the bound that the sign of its reduced cost, or of its dual value, asks for.
    Sign,
    /// The objective is that of the values.
    Objective,
    /// The bound that the sign of a factor asks for is finite.
    Finite,
    /// The least value of the combination is above 0.
    Positive,
    /// The cost falls along the direction.
    Cost,
}

impl Condition {
    ghost use Rattle.std.specs.Prelude.{◌≡◌};
    ghost use Rattle.pami_check.specs.ConditionWords.{condition_word};

    /// The word by which a verdict tells this condition.
    pub fn word(&self) -> &'static [u8]
        ensures { result.now ≡ condition_word self.now }
    {
        match self {
            Condition::Bound => b"bound",
            Condition::Row => b"row",
            Condition::Reduced => b"reduced",
            Condition::Sign => b"sign",
            Condition::Objective => b"objective",
            Condition::Finite => b"finite",
            Condition::Positive => b"positive",
            Condition::Cost => b"cost",
        }
    }
}

/// What becomes of the tests of a certificate, in their order. A variable is a column, or `columns + i` for row `i`;
/// `None` where the condition speaks of the whole certificate.
#[derive(Clone, Copy, Debug, PartialEq, Eq)]
pub enum Verdict {
    /// Every test is passed.
    Valid,
    /// The first test that isn't passed; no operation before it was refused.
    Invalid {
        condition: Condition,
        variable: Option<u32>,
    },
    /// The first operation that doesn't fit, with the test that needs it; every test before was passed.
    Refused {
        condition: Condition,
        variable: Option<u32>,
        refused: Refused,
    },
}
