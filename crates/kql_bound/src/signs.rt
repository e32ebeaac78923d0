//! The functions that the signs of a chain stand for.
ghost use Rattle.std.specs.Prelude.{◌≡◌};
ghost use Rattle.kql_bound.specs.Signs.{sign_func};

use crate::expr::ChainSign;
use kql_functions::{ArithmeticFunc, Func};

impl ChainSign {
    /// The function that the sign stands for.
    #[tactic(auto, unfolding(crate::specs::Signs::sign_func))]
    pub fn func(self) -> Func
        ensures func { result ≡ sign_func self }
    {
        match self {
            ChainSign::Add => Func::Arithmetic(ArithmeticFunc::Add),
            ChainSign::Subtract => Func::Arithmetic(ArithmeticFunc::Subtract),
            ChainSign::Multiply => Func::Arithmetic(ArithmeticFunc::Multiply),
            ChainSign::Divide => Func::Arithmetic(ArithmeticFunc::Divide),
            ChainSign::Modulo => Func::Arithmetic(ArithmeticFunc::Modulo),
        }
    }
}
