//! Why there is no Kirby sum.

/// Why there is no Kirby sum: the first reason that holds, in this order. Colourings and steps count from 1.
#[derive(Clone, Copy, Debug, PartialEq, Eq)]
pub enum SumFault {
    /// So many components give more than `limit` colourings: 65,536.
    TooMany {
        components: u32,
        limit: u32,
    },
    /// There is no projector of the greatest colour: `Delta_index` is the first that shares a factor with the modulus, and
    /// the greatest one is `common`.
    NoInverse {
        index: u32,
        common: u64,
    },
    /// So many names are open behind that step of the sweep of that colouring: more than 24.
    Wide {
        colouring: u64,
        step: u32,
        ends: u32,
    },
    /// There are more than 262,144 pairings of the open names behind that step of the sweep of that colouring.
    Table {
        colouring: u64,
        step: u32,
    },
    /// Memory ran out.
    Memory,
}
