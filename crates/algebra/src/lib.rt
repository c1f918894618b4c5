// The mathematics of finite fields and of polynomials over them. Each theorem stands on the contract of a small function, so
// that the check asks for its proof; the functions compute nothing.
#![tactic(auto)]

ghost use Rattle.algebra.specs.Doubling.{DoublingGivesAField};
ghost use Rattle.algebra.specs.Theorems.{AgreementIsEquality, ExactlyQPass, ExactlyTheseTuples, OneDecodes, OneInterpolates};

// Where r·r = u·r + v has no root in a field, the pairs a + b·y with y·y = u·y + v are a field.
pub fn doubling_gives_a_field()
    ensures { DoublingGivesAField }
{}

// Polynomials of s coefficients that agree at s distinct points are equal.
pub fn agreement_is_equality()
    ensures { AgreementIsEquality }
{}

// Through s points with distinct abscissae there is exactly one polynomial of s coefficients.
pub fn one_interpolates()
    ensures { OneInterpolates }
{}

// Of the polynomials of t + 1 coefficients over a field of q elements exactly q pass through t points with distinct abscissae.
pub fn exactly_q_pass()
    ensures { ExactlyQPass }
{}

// Of the tuples of such polynomials, one for each of d places with t points, exactly q^(d - r) pass also through a further point
// that is given at r of the places.
pub fn exactly_these_tuples()
    ensures { ExactlyTheseTuples }
{}

// Polynomials of t + 1 coefficients that each pass through all but t of at least 3·t + 1 points are equal.
pub fn one_decodes()
    ensures { OneDecodes }
{}
