ghost use Rattle.std.specs.Prelude.{◌≡◌, ◌+◌, ◌*◌, ◌<◌, map, length, IfOk};
ghost use Rattle.algebra.specs.Polynomials.{monomial};
ghost use Rattle.quadratic.specs.Systems.{system_in, term};
ghost use Rattle.quadratic.specs.Sizes.{Ready, Shaped};
ghost use Rattle.quadratic.specs.Encodings.{cell as matrix_cell, equation_cell, tie_cell, matrix_of};

use crate::position::{first_position, variable_at};
use crate::system::System;
use field::Field;
use std::alloc::{AllocError, Global};

// The rows of a matrix, and the cells that they have together.
#[derive(Clone, Copy)]
pub(crate) struct Shape {
    pub(crate) rows: usize,
    pub(crate) cells: usize,
}

// The matrix of a system that can be encoded: a row for each equation, then one for each wire position.
#[derive(Drop)]
pub(crate) struct Matrix<'a, F> {
    pub(crate) system: System<'a, F>,
    pub(crate) equations: usize,
    pub(crate) shape: Shape,
    ghost ready: { Ready system.variables system.pairs.now (length system.coefficients.now) equations },
    ghost shaped: { Shaped system.variables (length system.pairs.now) equations shape.rows shape.cells },
}

impl<'a, F: Field> Matrix<'a, F> {
    // The cells, row by row.
    pub(crate) fn cells(&self, heap: Global) -> Result<Vec<F>, AllocError>
        ensures { IfOk result (λ v. map F.Field.mean v.items ≡ matrix_of F.Field.ops (system_in F.Field.mean self.now.system) self.now.equations) }
    {
        let width = 3 * self.system.pairs.len() + 1;
        (0..self.shape.cells)
            .map(|q| self.cell(q / width, q % width))
            .collect(heap)
    }

    // The cell at row `i` and column `j`.
    fn cell(&self, i: usize, j: usize) -> F
        requires row { i < self.now.equations + 2 * length self.now.system.pairs.now }
        requires column { j < 3 * length self.now.system.pairs.now + 1 }
        ensures { F.Field.mean result ≡ matrix_cell F.Field.ops (system_in F.Field.mean self.now.system) self.now.equations i j }
    {
        if i < self.equations {
            self.equation_cell(i, j)
        } else {
            self.tie_cell(i - self.equations, j)
        }
    }

    // Row `k` of the equations at column `j`: the constant, each variable's coefficient at its first position, and
    // each pair's at its output.
    fn equation_cell(&self, k: usize, j: usize) -> F
        requires row { k < self.now.equations }
        requires column { j < 3 * length self.now.system.pairs.now + 1 }
        ensures { F.Field.mean result ≡ equation_cell F.Field.ops (system_in F.Field.mean self.now.system) k j }
    {
        let pairs = self.system.pairs;
        let positions = 2 * pairs.len();
        if j == 0 {
            return self.term(k, 0);
        }
        if j > positions {
            return self.term(k, self.system.variables + (j - positions));
        }
        let i = variable_at(pairs, j - 1);
        if first_position(pairs, i) == Some(j - 1) {
            self.term(k, 1 + i)
        } else {
            F::zero()
        }
    }

    // The row that ties position `p` to the first position of its variable, at column `j`.
    fn tie_cell(&self, p: usize, j: usize) -> F
        requires { p < 2 * length self.now.system.pairs.now }
        ensures { F.Field.mean result ≡ tie_cell F.Field.ops self.now.system.pairs.now p j }
    {
        let pairs = self.system.pairs;
        let first = first_position(pairs, variable_at(pairs, p)).unwrap();
        let here: F = placed(F::one(), 1 + p, j);
        let there = placed(F::one().neg(), 1 + first, j);
        here.plus(there)
    }

    // `c[k][j]`.
    fn term(&self, k: usize, j: usize) -> F
        requires row { k < self.now.equations }
        requires column { j < 1 + self.now.system.variables + length self.now.system.pairs.now }
        ensures { F.Field.mean result ≡ term F.Field.ops (system_in F.Field.mean self.now.system) k j }
    {
        let terms = 1 + self.system.variables + self.system.pairs.len();
        self.system.coefficients[k * terms + j]
    }
}

// The value at its column, and zero elsewhere.
fn placed<F: Field>(value: F, column: usize, j: usize) -> F
    ensures { F.Field.mean result ≡ monomial F.Field.ops (F.Field.mean value) column j }
{
    if j == column { value } else { F::zero() }
}
