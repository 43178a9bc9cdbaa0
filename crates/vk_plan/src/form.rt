ghost use Rattle.std.specs.Prelude.{◌≡◌, ◌<◌, length, All, IfOk};
ghost use Rattle.vk_plan.specs.Forms.{linear_part, form_value, NamesBelow};

use std::alloc::Global;
use vk_residue::{Acc, NoMemory, Residue};
use vk_seq::Seq;

/// A wire times a factor.
#[derive(Clone, Copy, Debug, PartialEq, Eq)]
pub struct Term {
    pub wire: u32,
    pub factor: Residue,
}

/// On a list of values: the sum of factor times value over the terms, plus the constant, modulo
/// 2^61 - 1.
#[derive(Debug, Drop)]
pub struct Form {
    pub terms: Seq<Term>,
    pub constant: Residue,
}

impl Form {
    /// The form without its constant on the values. Takes no memory.
    pub fn linear(&self, values: &[Residue]) -> Residue
        requires { NamesBelow (length values.now) self.now.terms }
        ensures { result ≡ linear_part self.now.terms values.now }
    {
        sum_of_terms(self.terms.as_slice(), values)
    }

    /// The form on the values. Takes no memory.
    #[tactic(auto, unfolding(crate::specs::Forms::form_value))]
    pub fn value(&self, values: &[Residue]) -> Residue
        requires { NamesBelow (length values.now) self.now.terms }
        ensures { result ≡ form_value self.now values.now }
    {
        self.linear(values).add(self.constant)
    }

    /// The same form in memory of its own.
    pub fn copy(&self, alloc: Global) -> Result<Form, NoMemory>
        ensures { IfOk result (λ form. form ≡ self.now) }
    {
        let terms = Vec::from_slice(alloc, self.terms.as_slice())?;
        Ok(Form {
            terms: Seq::from_vec(terms),
            constant: self.constant,
        })
    }
}

/// What the terms come to on the values: the sum of factor times value, modulo 2^61 - 1. Takes no
/// memory.
#[tactic(auto, using(crate::specs::FormLaws::linear_part_more), unfolding(crate::specs::Forms::linear_part))]
pub fn sum_of_terms(terms: &[Term], values: &[Residue]) -> Residue
    requires { NamesBelow (length values.now) terms.now }
    ensures { result ≡ linear_part terms.now values.now }
{
    let mut total = Acc::new();
    for term in terms {
        total.take(term.factor, values[term.wire as usize]);
    }
    total.give()
}
