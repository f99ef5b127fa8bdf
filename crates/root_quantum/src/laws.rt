//! Laws over the definitions alone, for all parameters: functions with empty bodies, each with its theorem.
ghost use Rattle.root_quantum.specs.Laws.{RootTimesInverse, LoopValueOfSquares, DeltaFirst, DeltaNext, DeltaSquare, TwistNone, TwistOne, TwistSum, Accepted, Refused, EqualParameters, GreatestOfColours};

/// A times A^-1 is 1.
pub fn root_times_inverse()
    ensures { RootTimesInverse }
{}

/// delta is minus the sum of the squares of A and of A^-1.
pub fn loop_value_of_squares()
    ensures { LoopValueOfSquares }
{}

/// `Delta_0` is 1, and `Delta_1` is delta.
pub fn delta_first()
    ensures { DeltaFirst }
{}

/// `Delta_(n+2)` is delta times `Delta_(n+1)` minus `Delta_n`.
pub fn delta_next()
    ensures { DeltaNext }
{}

/// The square of `Delta_(n+1)` minus the product of its neighbours is 1.
pub fn delta_square()
    ensures { DeltaSquare }
{}

/// `mu_n` to the power 0 is 1.
pub fn twist_none()
    ensures { TwistNone }
{}

/// `mu_1` is -A^3, the factor of a curl.
pub fn twist_one()
    ensures { TwistOne }
{}

/// `mu_n` to the power s times `mu_n` to the power t is `mu_n` to the power s + t, for whole s and t.
pub fn twist_sum()
    ensures { TwistSum }
{}

/// Two values are equal exactly where m, A, r and the form are.
pub fn equal_parameters()
    ensures { EqualParameters }
{}

/// The greatest colour of the form is one of its colours, none is greater, and it is a colour of projectors.
pub fn greatest_of_colours()
    ensures { GreatestOfColours }
{}

/// The refusal that computes is none exactly where m, A and r are parameters of the form.
pub fn accepted()
    ensures { Accepted }
{}

/// The refusal that computes is the first of the conditions that fails.
pub fn refused()
    ensures { Refused }
{}
