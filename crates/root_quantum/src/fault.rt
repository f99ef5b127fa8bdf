//! Why three numbers are no parameters.

/// The first of the conditions on m, A and r that fails, in the order in which they stand here.
#[derive(Clone, Copy, Debug, PartialEq, Eq)]
pub enum ParamFault {
    /// m is below 2 or at least 2^62.
    Modulus,
    /// A is 0 or at least m.
    Root,
    /// r is outside 3 to 10.
    Level,
    /// r is even, where the form wants it odd: in the even form alone.
    EvenLevel,
    /// The least t from 1 to 4r with A^t = 1 modulo m isn't 4r, and in the even form isn't 2r either: it is
    /// `found`, or there is none.
    Order { found: Option<u32> },
}
