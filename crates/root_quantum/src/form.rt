//! The two forms of parameters.

ghost use Rattle.std.specs.Prelude.{◌≡◌, ◌≤◌, ◌^◌, ◌<◌};
ghost use Rattle.root_quantum.specs.Forms.{takes_level, takes_order};

/// Which orders A may have, and over which colours a surgery value sums.
#[derive(Clone, Copy, Debug, PartialEq, Eq)]
pub enum Form {
    /// The order of A is 4r, and the colours are 0 to r-2 (Lickorish, ch. 13).
    All,
    /// r is odd, the order of A is 4r or 2r, and the colours are the even numbers from 0 to r-3 (this
    /// project's own).
    Even,
}

impl Form {
    /// Whether the form has this level: in the even form it is odd.
    pub(crate) fn takes_level(self, r: u32) -> bool
        ensures { result ≡ takes_level self r }
    {
        match self {
            Form::All => true,
            Form::Even => r % 2 == 1,
        }
    }

    /// Whether this is an order that the form wants: 4r, and in the even form 2r too.
    pub(crate) fn takes_order(self, r: u32, found: Option<u32>) -> bool
        requires { r ≤ 10 }
        ensures { result ≡ takes_order self r found }
    {
        match found {
            None => false,
            Some(order) => match self {
                Form::All => order == 4 * r,
                Form::Even => order == 4 * r || order == 2 * r,
            },
        }
    }
}
