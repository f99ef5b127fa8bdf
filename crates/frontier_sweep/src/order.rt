//! The three orders.

ghost use Rattle.std.specs.Prelude.{◌≡◌, ◌≢◌, ◌<◌, ◌==◌, ⊤, ℕ, [], length, true};
ghost use Rattle.std.specs.List.{All};
ghost use Rattle.std.specs.Set.{is_member};
ghost use Rattle.frontier_sweep.specs.Next.{next_of};
ghost use Rattle.frontier_sweep.specs.NextLeft.{next_of-left};
ghost use Rattle.frontier_laws.specs.Orders.{first_least, listed_of, greedy_of, given_of};

use crate::chooser::Choose;
use crate::groups::{first_of_all, first_of_group};
use crate::view::View;

/// The first of the places at which the measure is least. There is a place.
fn first_least<F: Fn(u32) -> u64>(places: &[u32], measure: F) -> u32
    requires some { 0 < length places.now }
    requires callable { All (λ place. F.pre measure place) places.now }
    ensures least { (key : ℕ → ℕ) → All (λ place. (value : ℕ) → F.post measure place value → value ≡ key place) places.now → result ≡ first_least key places.now }
    ensures among { is_member ◌==◌ places.now result ≡ true }
{
    let mut best = places[0];
    let mut least = measure(best);
    for place in places {
        let value = measure(*place);
        if value < least {
            best = *place;
            least = value;
        }
    }
    best
}

/// The order in which the nodes are listed: the least place left, from 0 on. A node is left. It takes no
/// memory. (This project's own, as the other orders.)
pub fn listed_next(view: &View) -> u32
    requires { view.now.left ≢ [] }
    ensures next { result ≡ listed_of view.now }
    ensures left { is_member ◌==◌ view.now.left result ≡ true }
{
    view.left()[0]
}

/// The greedy order: of the places left, the one after which the fewest names are open, and the least
/// of these. A node is left. It takes no memory.
pub fn greedy_next(view: &View) -> u32
    requires { view.now.left ≢ [] }
    ensures next { result ≡ greedy_of view.now }
    ensures left { is_member ◌==◌ view.now.left result ≡ true }
{
    let rises = view.rises();
    first_least(view.left(), |place| u64::from(rises[place as usize]))
}

/// The order that a list of groups gives: among the places left, those whose group stands first in the
/// list, and the least of these; groups that are not in the list come behind it, increasing. A node is
/// left. It takes no memory.
pub fn given_next(view: &View, order: &[u32]) -> u32
    requires { view.now.left ≢ [] }
    ensures next { result ≡ given_of order.now view.now }
    ensures left { is_member ◌==◌ view.now.left result ≡ true }
{
    for group in order {
        if let Some(place) = first_of_group(view, *group) {
            return place;
        }
    }
    first_of_all(view)
}

/// One of the three orders, as what chooses (this project's own).
#[derive(Drop, Debug)]
pub enum Order {
    /// The nodes as they are listed.
    Listed,
    /// The nodes after which the fewest names are open.
    Greedy,
    /// The nodes by a list of groups.
    Given(Vec<u32>),
}

impl Choose for Order {
    ghost answers = { λ order view node. node ≡ next_of order view };

    ghost chooses = { λ order. ⊤ };

    ghost names_left = { λ order view node chooses is_view left answer. next_of-left order view node left answer };

    fn choose(&self, view: &View) -> u32 {
        match self {
            Order::Listed => listed_next(view),
            Order::Greedy => greedy_next(view),
            Order::Given(groups) => given_next(view, groups),
        }
    }
}
