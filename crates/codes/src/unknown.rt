// What a byte that is no code is refused as.
ghost use Rattle.std.specs.Prelude.{Some, codes};

use std::error::Error;
use std::fmt;

// The bytes stand for no case.
#[derive(Clone, Copy, Debug, PartialEq, Eq)]
pub struct UnknownCode;

impl fmt::Display for UnknownCode {
    ghost output = { λ unknown. Some (codes "a code that stands for nothing") };

    fn fmt<W: fmt::Write>(&self, f: &mut fmt::Formatter<W>) -> fmt::Result {
        f.write_str("a code that stands for nothing")
    }
}

impl Error for UnknownCode {}
