//! The pools in words.
ghost use Rattle.std.specs.Prelude.{Some};
ghost use Rattle.explanation.specs.Texts.{pool_text};

use std::fmt;

/// A pool, from 1, that is shown by its name.
#[derive(Clone, Copy, Debug, PartialEq, Eq)]
pub struct PoolName(pub usize);

/// Its market and what its hours ran for.
impl fmt::Display for PoolName {
    ghost output = { λ name. Some (pool_text name.0) };

    fn fmt<W: fmt::Write>(&self, f: &mut fmt::Formatter<W>) -> fmt::Result {
        let pool = self.0;
        match pool {
            1 => write!(f, "day-ahead economic"),
            2 => write!(f, "day-ahead VAR"),
            3 => write!(f, "real-time economic"),
            4 => write!(f, "real-time SCR"),
            5 => write!(f, "real-time VAR"),
            6..=13 => {
                let region = pool - 5;
                write!(f, "day-ahead LSCPR in region {region}")
            }
            14..=21 => {
                let region = pool - 13;
                write!(f, "real-time LSCPR in region {region}")
            }
            _ => write!(f, "no pool"),
        }
    }
}
