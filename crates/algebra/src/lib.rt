// Mathematics over every field that keeps the laws: its definitions stand in `specs/`. The functions
// here do nothing; each has a theorem in its contract.
#![tactic(auto)]

ghost use Rattle.algebra.specs.Theorems.{Sound, Complete, Ends};
ghost use Rattle.algebra.specs.Theorems.{FewAlpha, FewBeta, FewZ, RootBound};

use field::Field;

// A claim that does not hold passes the equations only by a lucky challenge.
pub fn sound<F: Field>()
    ensures { Sound F.Field.ops }
{}

// An honest reply to a claim that holds passes the equations at every z other than zero.
pub fn complete<F: Field>()
    ensures { Complete F.Field.ops }
{}

// At most m - 1 values of alpha are lucky.
pub fn few_alpha<F: Field>()
    ensures { FewAlpha F.Field.ops }
{}

// At most n - 1 values of beta are lucky.
pub fn few_beta<F: Field>()
    ensures { FewBeta F.Field.ops }
{}

// At most max(m·N - 1, 6n) values of z are lucky.
pub fn few_z<F: Field>()
    ensures { FewZ F.Field.ops }
{}

// The polynomials that decide whether z is lucky have no coefficients past the ones that are counted.
pub fn ends<F: Field>()
    ensures { Ends F.Field.ops }
{}

// A polynomial of at most L coefficients that is not zero has at most L - 1 roots.
pub fn root_bound<F: Field>()
    ensures { RootBound F.Field.ops }
{}
