ghost use Rattle.std.specs.Prelude.{◌≡◌, ◌<◌, ◌≤◌, ◌%◌, ◌^◌, ◌↔◌, IsNone, IfSome};
ghost use Rattle.vk_residue.specs.Residue.{modulus, sum, difference, negative, product};

use std::marker::Model;

/// 2^61 - 1, the modulus of all arithmetic here. Nothing rests on its being prime.
pub const MODULUS: u64 = 2305843009213693951;

/// A number modulo 2^61 - 1, kept as the least whole number of its class, below [`MODULUS`].
#[derive(Clone, Copy, Debug, PartialEq, Eq)]
pub struct Residue {
    number: u64,
}

impl Model for Residue {
    ghost use Rattle.std.specs.Prelude.{ℕ, ◌<◌};
    ghost use Rattle.vk_residue.specs.Residue.{modulus};

    ghost Value = { ℕ };

    ghost view = { λ r. r.number };

    ghost invariant = { λ r. r.number < modulus };

    ghost inverse = { λ n. record { number = n } };
}

impl Residue {
    /// The residue of 0.
    pub const ZERO: Residue = Residue { number: 0 };

    /// The residue of 1.
    pub const ONE: Residue = Residue { number: 1 };

    /// The residue of that number. None where it is not below [`MODULUS`].
    pub fn new(n: u64) -> Option<Residue>
        ensures refused { IsNone result ↔ (modulus ≤ n) }
        ensures value { IfSome result (λ r. r ≡ n) }
    {
        if n < MODULUS {
            Some(Residue { number: n })
        } else {
            None
        }
    }

    /// The number, below [`MODULUS`].
    pub fn get(self) -> u64
        ensures value { result ≡ self }
        ensures bound { result < modulus }
    {
        self.number
    }

    /// The sum modulo 2^61 - 1.
    pub fn add(self, other: Residue) -> Residue
        ensures { result ≡ sum self other }
    {
        let total = self.number + other.number;
        Residue {
            number: if total < MODULUS {
                total
            } else {
                total - MODULUS
            },
        }
    }

    /// The difference modulo 2^61 - 1.
    pub fn sub(self, other: Residue) -> Residue
        ensures { result ≡ difference self other }
    {
        Residue {
            number: if self.number < other.number {
                self.number + (MODULUS - other.number)
            } else {
                self.number - other.number
            },
        }
    }

    /// The number whose sum with this one is 0.
    pub fn neg(self) -> Residue
        ensures { result ≡ negative self }
    {
        Residue::ZERO.sub(self)
    }

    /// The product modulo 2^61 - 1.
    pub fn times(self, factor: Residue) -> Residue
        ensures { result ≡ product self factor }
    {
        folded(u128::from(self.number) * u128::from(factor.number))
    }

    /// 2^i, for i below 61.
    pub fn pow2(i: u32) -> Residue
        requires { i < 61 }
        ensures { result ≡ 2 ^ i }
    {
        Residue { number: 1 << i }
    }
}

/// That number modulo 2^61 - 1, with no division: 2^61 is 1 there, so each run of 61 bits counts as
/// much as the lowest.
pub(crate) fn folded(whole: u128) -> Residue
    ensures { result ≡ whole % modulus }
{
    let low = (whole & u128::from(MODULUS)) as u64;
    let middle = ((whole >> 61) & u128::from(MODULUS)) as u64;
    let high = (whole >> 122) as u64;
    let total = low + middle + high;
    let once = (total & MODULUS) + (total >> 61);
    Residue {
        number: if once < MODULUS { once } else { once - MODULUS },
    }
}

const _: () = prove!(Residue::ZERO.number == 0);

const _: () = prove!(Residue::ONE.number == 1);
