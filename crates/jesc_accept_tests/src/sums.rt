//! Sums of terms, each with all its coefficients.

/// The number of terms that sums are over.
pub const TERMS: usize = 8;

/// The greatest size of a coefficient, and that of a bound.
pub const MOST_COEFFICIENT: u128 = 1 << 31;

pub const MOST_BOUND: u128 = 1 << 94;

/// The coefficient of each term, and a number: the bound of a row, or the constant of an argument.
#[derive(Drop, Clone, Copy)]
pub struct Sum {
    pub coefficients: [i128; TERMS],
    pub number: i128,
}

/// The sum of these parts.
pub fn sum_of(form: &[(i64, u32)], number: i128) -> Sum {
    let coefficients = [0i128; TERMS];
    let mut sum = Sum {
        coefficients,
        number,
    };
    for part in form {
        sum.put(part.0 as i128, part.1 as i128);
    }
    sum
}

impl Sum {
    /// Gives a term its coefficient.
    pub fn put(&mut self, coefficient: i128, term: i128) {
        if 0 <= term && term < TERMS as i128 {
            self.coefficients[term as usize] = coefficient;
        }
    }

    /// a times this sum and b times the other.
    pub fn with(self, a: i128, b: i128, other: Sum) -> Sum {
        let mut coefficients = [0i128; TERMS];
        for term in 0..TERMS {
            let first = a.wrapping_mul(self.coefficients[term]);
            coefficients[term] = first.wrapping_add(b.wrapping_mul(other.coefficients[term]));
        }
        let first = a.wrapping_mul(self.number);
        Sum {
            coefficients,
            number: first.wrapping_add(b.wrapping_mul(other.number)),
        }
    }

    /// The row of what isn't so where this row is.
    pub fn negated(self) -> Sum {
        let mut turned = self.with(-1, 0, self);
        turned.number = turned.number.wrapping_sub(1);
        turned
    }

    /// The first coefficient that isn't 0, or 0.
    pub fn first(self) -> i128 {
        for coefficient in self.coefficients {
            if coefficient != 0 {
                return coefficient;
            }
        }
        0
    }

    /// Whether no number passes its limit.
    pub fn is_narrow(self) -> bool {
        for coefficient in self.coefficients {
            if coefficient.unsigned_abs() > MOST_COEFFICIENT {
                return false;
            }
        }
        self.number.unsigned_abs() <= MOST_BOUND
    }

    /// Whether the row is this one over d, its bound rounded down.
    pub fn comes_to(self, d: i128, row: Sum) -> bool {
        for term in 0..TERMS {
            if d.wrapping_mul(row.coefficients[term]) != self.coefficients[term] {
                return false;
            }
        }
        d >= 1 && self.number.div_euclid(d) == row.number
    }

    /// Whether the row is this one over a positive number, its bound rounded down.
    pub fn has_normal_form(self, row: Sum) -> bool {
        let first = self.first();
        let divisor = row.first();
        if first < 1 || divisor < 1 {
            return false;
        }
        self.comes_to(first / divisor, row)
    }

    /// Whether the number divides each coefficient.
    fn is_divided(self, d: u32) -> bool {
        for coefficient in self.coefficients {
            if d == 0 || coefficient % d as i128 != 0 {
                return false;
            }
        }
        true
    }

    /// Whether the first coefficient is positive and no number but 1 divides all.
    pub fn is_normal(self) -> bool {
        let first = self.first();
        if first < 1 {
            return false;
        }
        let most = u32::try_from(first).unwrap_or(u32::MAX);
        for d in 2..=most {
            if self.is_divided(d) {
                return false;
            }
        }
        true
    }
}
