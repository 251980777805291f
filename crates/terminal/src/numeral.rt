// Numbers as text.
ghost use Rattle.std.specs.Prelude.{Some, false, []};
ghost use Rattle.std.specs.Fmt.{padded_integral};
ghost use Rattle.model.specs.Number.{nat_text};

use crate::digits::decimal;
use std::{fmt, str};

// A number that is written by its decimal digits, which no division makes.
#[derive(Clone, Copy)]
pub struct Decimal(pub u64);

impl fmt::Display for Decimal {
    ghost output = { λ d. Some (nat_text d.0) };

    ghost styled_output = { λ d s. Some (padded_integral s false [] (nat_text d.0)) };

    fn fmt<W: fmt::Write>(&self, f: &mut fmt::Formatter<W>) -> fmt::Result {
        let mut digits = [0u8; 20];
        let n = decimal(self.0, &mut digits);
        let Ok(text) = str::from_utf8(&digits[..n]) else {
            unreachable!()
        };
        f.pad_integral(true, "", text)
    }
}
