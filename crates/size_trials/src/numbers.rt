// Numbers that have a letter for a name, and what is counted with them.
use vk_cases::{Tried, Unreplayed};

/// How many letters there are.
const LETTERS: usize = 26;

/// A number for each letter from `a` to `z`.
#[derive(Clone, Copy)]
pub struct Numbers {
    values: [u64; LETTERS],
}

impl Numbers {
    /// All are 0.
    pub fn new() -> Numbers {
        Numbers {
            values: [0; LETTERS],
        }
    }

    /// The number of the letter.
    pub fn at(&self, letter: u8) -> Tried<u64> {
        let place = place_of(letter);
        if place < LETTERS {
            return Ok(self.values[place]);
        }
        Err(Unreplayed::NoCase)
    }

    /// Has this number for the letter from now on.
    pub fn put(&mut self, letter: u8, number: u64) -> Tried<()> {
        let place = place_of(letter);
        if place < LETTERS {
            self.values[place] = number;
            return Ok(());
        }
        Err(Unreplayed::NoCase)
    }

    /// What an expression comes to: sums and differences of terms, each of which is worked out from
    /// left to right. Its operators are `+`, `-`, `*`, `/`, `%`; `<`, times a power of two; and `=`
    /// and `>`, which are 1 or 0. Less than 0 is 0.
    pub fn value(&self, expression: &[u8]) -> Tried<u64> {
        let mut sum = Sum::new();
        for byte in expression {
            sum.take(self, *byte)?;
        }
        Ok(sum.end())
    }
}

/// The place of a letter, or a greater one.
fn place_of(byte: u8) -> usize {
    usize::from(byte).wrapping_sub(usize::from(b'a'))
}

/// A sum that is worked out byte by byte.
#[derive(Clone, Copy)]
struct Sum {
    plus: u64,
    minus: u64,
    /// Whether the term is taken away.
    is_less: bool,
    term: u64,
    /// What is done with the term and the factor.
    operator: u8,
    factor: u64,
}

impl Sum {
    fn new() -> Sum {
        Sum {
            plus: 0,
            minus: 0,
            is_less: false,
            term: 0,
            operator: b'+',
            factor: 0,
        }
    }

    /// Takes a byte of the expression.
    fn take(&mut self, numbers: &Numbers, byte: u8) -> Tried<()> {
        match byte {
            b'0'..=b'9' => {
                let digit = u64::from(byte.wrapping_sub(b'0'));
                self.factor = self.factor.saturating_mul(10).saturating_add(digit);
            }
            b'a'..=b'z' => self.factor = numbers.at(byte)?,
            b'+' | b'-' => self.end_term(byte),
            b'*' | b'/' | b'%' | b'<' | b'=' | b'>' => self.end_factor(byte),
            _ => return Err(Unreplayed::NoCase),
        }
        Ok(())
    }

    /// Does with the term and the factor what is to be done, and begins a factor.
    fn end_factor(&mut self, operator: u8) {
        self.term = joined(self.term, self.operator, self.factor);
        self.factor = 0;
        self.operator = operator;
    }

    /// Adds the term, and begins one.
    fn end_term(&mut self, sign: u8) {
        self.end_factor(b'+');
        if self.is_less {
            self.minus = self.minus.saturating_add(self.term);
        } else {
            self.plus = self.plus.saturating_add(self.term);
        }
        self.is_less = sign == b'-';
    }

    /// The sum of all terms.
    fn end(self) -> u64 {
        let mut sum = self;
        sum.end_term(b'+');
        sum.plus.saturating_sub(sum.minus)
    }
}

/// What the operator makes of a term and a factor.
fn joined(term: u64, operator: u8, factor: u64) -> u64 {
    match operator {
        b'*' => term.saturating_mul(factor),
        b'/' => term.checked_div(factor).unwrap_or(0),
        b'%' => term.checked_rem(factor).unwrap_or(0),
        b'<' => term.saturating_mul(2u64.saturating_pow(factor.min(64) as u32)),
        b'=' => u64::from(term == factor),
        b'>' => u64::from(term > factor),
        _ => factor,
    }
}
