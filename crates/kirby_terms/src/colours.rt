//! Colourings by number (this project's own): a colour for each component, in dictionary order, the last component changing
//! fastest.

ghost use Rattle.std.specs.Prelude.{◌≡◌, ◌-◌, ◌^◌, ◌<◌, ◌≤◌, ℕ, List, length, slice_index, IfOk};
ghost use Rattle.std.specs.List.{All};
ghost use Rattle.root_quantum.specs.Colours.{colours_of, form_colours, greatest_colour};
ghost use Rattle.root_quantum.specs.declared.form.Form.TheVariants as forms;
ghost use Rattle.kirby_terms.specs.Colourings.{colouring_at, colour_in};

use root_quantum::{Form, Params};
use std::alloc::{AllocError, Global};

/// The place, from 0 on in a list of so many colours, of the colour that the colouring gives to the component.
fn place_of(count: u64, components: u32, index: u64, component: u32) -> u64
    requires some { 0 < count }
    requires first { 1 ≤ component }
    requires last { component ≤ components }
    requires lowest { 1 ≤ index }
    requires highest { index ≤ count ^ components }
    ensures below { result < count }
    ensures place { (colours : List ℕ) → length colours ≡ count → colour_in colours components index component ≡ slice_index colours result }
{
    let mut rest = index - 1;
    for _ in 0..components - component {
        rest /= count;
    }
    rest % count
}

/// The colour of a component in the colouring with that number, over the colours 0 to r-2. Components count from 1, and so do the
/// numbers, in dictionary order, the last component changing fastest. r is 3 to 10. It takes no memory.
pub fn colouring(components: u32, r: u32, index: u64, component: u32) -> u32
    requires low { 3 ≤ r }
    requires high { r ≤ 10 }
    requires first { 1 ≤ component }
    requires last { component ≤ components }
    requires lowest { 1 ≤ index }
    requires highest { index ≤ (r - 1) ^ components }
    requires few { (r - 1) ^ components ≤ 65536 }
    ensures { result ≡ colour_in (colours_of forms.All r) components index component }
{
    place_of(u64::from(r - 1), components, index, component) as u32
}

/// How many colours the form of the parameters has, from 1 to 9.
pub fn colour_count(params: &Params) -> u32
    ensures count { result ≡ length (form_colours params.now) }
    ensures some { 1 ≤ result }
    ensures few { result ≤ 9 }
{
    match params.form() {
        Form::All => params.level() - 1,
        Form::Even => (params.level() - 1) / 2,
    }
}

/// The colour of the form at a place, from 0 on.
pub(crate) fn colour_at(params: &Params, place: u32) -> u32
    requires { place < length (form_colours params.now) }
    ensures colour { result ≡ slice_index (form_colours params.now) place }
    ensures few { result ≤ 8 }
{
    match params.form() {
        Form::All => place,
        Form::Even => 2 * place,
    }
}

/// The colour of a component in the colouring with that number, over the colours of the parameters' form: 0 to r-2, or the even
/// numbers from 0 to r-3. Components and numbers count as in `colouring`. It takes no memory.
pub fn colouring_of(params: &Params, components: u32, index: u64, component: u32) -> u32
    requires first { 1 ≤ component }
    requires last { component ≤ components }
    requires lowest { 1 ≤ index }
    requires highest { index ≤ length (form_colours params.now) ^ components }
    requires few { length (form_colours params.now) ^ components ≤ 65536 }
    ensures colour { result ≡ colour_in (form_colours params.now) components index component }
    ensures few { result ≤ 8 }
{
    let count = u64::from(colour_count(params));
    colour_at(params, place_of(count, components, index, component) as u32)
}

/// The colours of the colouring with that number, that of component 1 first.
pub(crate) fn colours_in(
    alloc: Global,
    params: &Params,
    components: u32,
    index: u64,
) -> Result<Vec<u32>, AllocError>
    requires lowest { 1 ≤ index }
    requires highest { index ≤ length (form_colours params.now) ^ components }
    requires few { length (form_colours params.now) ^ components ≤ 65536 }
    ensures colours { IfOk result (λ colours. colours.items ≡ colouring_at (form_colours params.now) components index) }
    ensures count { IfOk result (λ colours. length colours.items ≡ components) }
    ensures few { IfOk result (λ colours. All (λ n. n ≤ greatest_colour params.now) colours.items) }
{
    let mut colours = Vec::new(alloc);
    for component in 0..components {
        colours.push(colouring_of(params, components, index, component + 1))?;
    }
    Ok(colours)
}
