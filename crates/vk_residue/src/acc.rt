ghost use Rattle.std.specs.Prelude.{◌≡◌};
ghost use Rattle.vk_residue.specs.Residue.{sum, product};

use crate::residue::{Residue, folded};
use std::marker::Model;

/// How many products are added to a folded number before it is folded again: each is below 2^122,
/// so that many stay below 2^127.
const MOST_PRODUCTS: u32 = 32;

/// A sum of products modulo 2^61 - 1, which is folded once for many of them.
#[derive(Debug, Drop)]
pub struct Acc {
    whole: u128,
    products: u32,
}

impl Model for Acc {
    ghost use Rattle.std.specs.Prelude.{ℕ, ◌+◌, ◌*◌, ◌%◌, ◌^◌, ◌≤◌, ◌<◌};
    ghost use Rattle.vk_residue.specs.Residue.{modulus};

    ghost Value = { ℕ };

    ghost view = { λ a. a.whole % modulus };

    ghost invariant = { λ a. (a.products ≤ 32) × (a.whole < 2 ^ 61 + a.products * 2 ^ 122) };
}

impl Acc {
    /// The sum of no products.
    pub fn new() -> Acc
        ensures { result ≡ 0 }
    {
        Acc {
            whole: 0,
            products: 0,
        }
    }

    /// Adds the product of the two.
    pub fn take(&mut self, factor: Residue, value: Residue)
        ensures { self.new ≡ sum self.old (product factor value) }
    {
        if self.products == MOST_PRODUCTS {
            self.whole = u128::from(folded(self.whole).get());
            self.products = 0;
        }
        self.whole += u128::from(factor.get()) * u128::from(value.get());
        self.products += 1;
    }

    /// The sum so far.
    pub fn give(&self) -> Residue
        ensures { result ≡ self.now }
    {
        folded(self.whole)
    }
}
