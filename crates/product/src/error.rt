// What can go wrong, by name and by number.
ghost use Rattle.std.specs.Prelude.{◌≡◌};
ghost use Rattle.product.specs.Product.{product_number};
ghost use Rattle.product.specs.declared.error.ProductError.TheVariants.{NotAscii as not_ascii};

use std::error::Error;
use std::fmt;

/// Why product information takes no reply, or names no firmware. Nothing changes.
#[derive(Clone, Copy, Debug, PartialEq, Eq)]
pub enum ProductError {
    IllFormed,
    NotAscii,
}

impl ProductError {
    /// The number that the documents have: 16 or 15.
    pub fn number(self) -> u8
        ensures { result ≡ product_number self }
    {
        match self {
            ProductError::IllFormed => 16,
            ProductError::NotAscii => 15,
        }
    }
}

impl fmt::Display for ProductError {
    fn fmt<W: fmt::Write>(&self, f: &mut fmt::Formatter<W>) -> fmt::Result {
        match self {
            ProductError::IllFormed => write!(f, "a text of more than 32 bytes"),
            ProductError::NotAscii => write!(f, "{}", texts::NotAscii),
        }
    }
}

impl Error for ProductError {}

impl From<texts::NotAscii> for ProductError {
    ghost from_gives = { λ _ e. e ≡ not_ascii };

    fn from(_error: texts::NotAscii) -> ProductError {
        Self::NotAscii
    }
}
