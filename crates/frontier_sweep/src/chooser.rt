//! Choosers: what names the node that a contraction takes next.

ghost use Rattle.std.specs.Prelude.{◌≡◌, ◌≢◌, ◌==◌, ℕ, [], true};
ghost use Rattle.std.specs.Set.{is_member};
ghost use Rattle.frontier_laws.specs.Orders as Orders;
ghost use Rattle.frontier_sweep.specs.Choices.{Answers, Chooses};
ghost use Rattle.frontier_laws.specs.Views.{IsView};

use crate::view::View;
use std::marker::Model;

/// What names a node that is still left on a view, by its place, from 0 on (this project's own).
///
/// `answers` tells which nodes it may name on a view, and `chooses` that it may be asked on each view
/// with a node left, and that each of its answers is a node that is left.
pub trait Choose {
    ghost answers: { Self → Orders.View → ℕ → Type 0 };

    ghost chooses: { Self → Type 0 };

    /// Names a node that is still left on the view, by its place. A node is left.
    fn choose(&self, view: &View) -> u32
        requires chooses { chooses self.now }
        requires view { IsView view.now }
        requires left { view.now.left ≢ [] }
        ensures { answers self.now view.now result };

    ghost names_left: { (chooser : Self) (view : Orders.View) (node : ℕ) → chooses chooser → IsView view → view.left ≢ [] → answers chooser view node → is_member ◌==◌ view.left node ≡ true };
}

/// A closure that chooses (this project's own). A chooser of it is made in a function over the bound
/// `Choose`, which is called with the closure in a `Kept`.
#[derive(Drop)]
pub struct Kept<F>(pub F);

impl<F: Fn(&View) -> u32> Choose for Kept<F> {
    ghost answers = { λ kept view node. Answers F.Fn kept.0 view node };

    ghost chooses = { λ kept. Chooses F.Fn kept.0 };

    ghost names_left = { λ kept view node kept_chooses is_view left answer. kept_chooses.names_left view node is_view left answer };

    fn choose(&self, view: &View) -> u32 {
        (self.0)(view)
    }
}

/// Something that chooses, beside the fact that it does: on each view with a node left it may be asked,
/// and names a node that is left. So its answers need no test.
#[derive(Drop)]
pub struct Chooser<C: Choose> {
    choose: C,
}

impl<C: Choose> Model for Chooser<C> {
    ghost Value = { C };

    ghost coded = { C.code };

    ghost view = { λ chooser. chooser.choose };

    ghost invariant = { λ chooser. C.chooses chooser.choose };
}

impl<C: Choose> Chooser<C> {
    /// Keeps what chooses: on each view with a node left it may be asked, and names a node that is left. It
    /// takes no memory.
    pub fn keep(choose: C) -> Chooser<C>
        requires { C.chooses choose }
        ensures { result ≡ choose }
    {
        Chooser { choose }
    }

    /// Names a node that is still left on the view, by its place, from 0 on. A node is left. It takes no
    /// memory of its own.
    pub fn name(&self, view: &View) -> u32
        requires view { IsView view.now }
        requires left { view.now.left ≢ [] }
        ensures answer { C.answers self.now view.now result }
        ensures left { is_member ◌==◌ view.now.left result ≡ true }
    {
        self.choose.choose(view)
    }
}
