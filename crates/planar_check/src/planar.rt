//! Diagrams and nets that were found planar.

ghost use Rattle.std.specs.Prelude.{List, ℕ, ◌≡◌, ◌⊎◌, ◌<◌, ◌≤◌, ◌≢◌, ◌-◌, slice_index, None, Some, length, IfOk, IfErr, IfSome, OnOk};
ghost use Rattle.std.specs.List.{All};
ghost use Rattle.planar_check.specs.Places.{slot_lists, item_slots, net_item_slots, crossings_of, place_labels, first_place, other_place};
ghost use Rattle.planar_check.specs.Planar.{face_of, face_count, wanted_faces, planar_refusal, IsPlanar};
ghost use Rattle.planar_check.specs.Components.{component_of, least_labels};
ghost use Rattle.planar_check.specs.Signs.{enters, sign_sum, writhe, linking};
ghost use Rattle.planar_check.specs.Tables.{ArePlaces, AreCrossings, IsWithin};

use crate::component::{Components, component_of};
use crate::count::{count_edges, count_least, count_pieces};
use crate::fault::PlanarFault;
use crate::placed::{Placed, Places};
use crate::sign::{Signed, sign_sum};
use pd_reader::{Diagram, NetDiagram};
use std::alloc::{AllocError, Global};
use std::marker::Model;

/// How many faces the items have, and how many they would have if they were planar.
#[derive(Drop)]
struct FaceCounts {
    found: usize,
    wanted: usize,
}

impl FaceCounts {
    /// Counts faces, edges, items with slots and their connected pieces.
    fn count(alloc: Global, places: &Places) -> Result<FaceCounts, AllocError>
        requires places { (lists : List (List ℕ)) × ArePlaces lists places.now }
        requires few { length places.now.others.items ≤ 1024 }
        requires few_items { places.now.item_count ≤ 256 }
        ensures found { IfOk result (λ faces. (lists : List (List ℕ)) → ArePlaces lists places.now → faces.found ≡ face_count lists) }
        ensures wanted { IfOk result (λ faces. (lists : List (List ℕ)) → ArePlaces lists places.now → faces.wanted ≡ wanted_faces lists) }
        ensures few_found { IfOk result (λ faces. faces.found ≤ 1024) }
        ensures few_wanted { IfOk result (λ faces. faces.wanted ≤ 1536) }
    {
        let found = count_least(&places.faces);
        let pieces = count_pieces(alloc, places.item_count, &places.owners, &places.others)?;
        let edges = count_edges(&places.others);
        let wanted = (edges + 2 * pieces).saturating_sub(places.item_count);
        Ok(FaceCounts { found, wanted })
    }
}

/// The places of the items, where these have as many faces as planar ones.
fn check_items<I: Placed>(alloc: Global, items: &[I]) -> Result<Places, PlanarFault>
    requires { length items.now ≤ 256 }
    ensures places { IfOk result (ArePlaces (slot_lists I.slots_of items.now)) }
    ensures ok { OnOk result (planar_refusal I.slots_of items.now ≡ None) }
    ensures refused { IfErr result (λ fault. (fault ≡ PlanarFault.Memory) ⊎ (planar_refusal I.slots_of items.now ≡ Some fault)) }
{
    let places = Places::of(alloc, items)?;
    let faces = FaceCounts::count(alloc, &places)?;
    if faces.found == faces.wanted {
        Ok(places)
    } else {
        Err(PlanarFault::NotPlanar {
            faces: faces.found as u32,
            wanted: faces.wanted as u32,
        })
    }
}

/// A link diagram that was found planar.
///
/// Contracts see it as the list of its items. `IsPlanar` says what each such list keeps.
#[derive(Drop, Debug)]
pub struct Planar {
    diagram: Diagram,
    places: Places,
    components: Components,
}

impl Model for Planar {
    ghost use Rattle.std.specs.Prelude.{List};
    ghost use Rattle.pd_reader.specs.declared.item.Item.{Item};

    ghost Value = { List Item };

    ghost view = { λ planar. planar.diagram };

    ghost use Rattle.planar_check.specs.Places.{item_slots, crossings_of};
    ghost use Rattle.planar_check.specs.Planar.{IsPlanar};
    ghost use Rattle.planar_check.specs.Tables.{ArePlaces, AreComponents, AreEntered, AreCrossings};
    ghost use Rattle.pd_reader.specs.Diagrams.{IsDiagram};

    ghost invariant = { λ planar. IsDiagram planar.diagram
        × IsPlanar item_slots planar.diagram
        × ArePlaces (crossings_of planar.diagram) planar.places
        × AreComponents planar.diagram planar.components.names.items planar.components.leasts.items planar.components.least_labels.items
        × AreEntered planar.diagram planar.components.entered.items
        × AreCrossings planar.diagram planar.components.crossings.items };
}

/// The diagram, where it is planar: where it has E - N + 2k faces, for E edges between places, N
/// crossings and k connected pieces of these.
///
/// `NotPlanar` holds the number of faces and E - N + 2k: 1 and 3 for `X[1,2,1,2]`. `Memory` is want
/// of memory. (Euler's formula.)
pub fn check(alloc: Global, diagram: Diagram) -> Result<Planar, PlanarFault>
    ensures made { IfOk result (λ planar. planar ≡ diagram) }
    ensures ok { OnOk result (planar_refusal item_slots diagram ≡ None) }
    // A refusal has its reason, but where memory runs out.
    ensures refused { IfErr result (λ fault. (fault ≡ PlanarFault.Memory) ⊎ (planar_refusal item_slots diagram ≡ Some fault)) }
{
    let places = check_items(alloc, diagram.items())?;
    let components = Components::of(alloc, diagram.items(), &places)?;
    Ok(Planar {
        diagram,
        places,
        components,
    })
}

impl Planar {
    /// The diagram that was checked.
    pub fn diagram(&self) -> &Diagram
        ensures diagram { result.now ≡ self.now }
        ensures planar { IsPlanar item_slots self.now }
    {
        &self.diagram
    }

    /// How many components there are: one for each class of labels that are reached by walking straight
    /// on at crossings, and one for each loop.
    pub fn components(&self) -> u32
        ensures count { result ≡ length (least_labels self.now) }
        ensures few { result ≤ 512 }
    {
        self.components.least_labels.len() as u32
    }

    /// The component of the label, or `None` where the label is not in the diagram.
    ///
    /// Components are numbered from 1 in the order of their least labels: in the Hopf link `X[2,4,3,1]`,
    /// `X[4,2,1,3]` the labels 1 and 4 have the component 1, 2 and 3 the component 2.
    pub fn component_of(&self, label: u32) -> Option<u32>
        ensures number { result ≡ component_of self.now label }
        ensures in_range { IfSome result (λ number. (1 ≤ number) × (number ≤ length (least_labels self.now))) }
    {
        component_of(
            &self.components.names,
            &self.components.leasts,
            &self.components.least_labels,
            label,
        )
    }

    /// The least label of a component, which is 1 to `components()`.
    pub fn least_label(&self, component: u32) -> u32
        requires first { 1 ≤ component }
        requires last { component ≤ length (least_labels self.now) }
        ensures { result ≡ slice_index (least_labels self.now) (component - 1) }
    {
        self.components.least_labels[component as usize - 1]
    }

    /// The writhe of a component, which is 1 to `components()`: the sum of the signs of its crossings with
    /// itself. It is -3 for the left-handed trefoil.
    pub fn writhe(&self, component: u32) -> i64
        requires first { 1 ≤ component }
        requires last { component ≤ length (least_labels self.now) }
        ensures { result ≡ writhe self.now component }
    {
        sign_sum(&self.components.crossings, component, component)
    }

    /// The crossings in their order.
    pub(crate) fn crossings(&self) -> &[Signed]
        ensures crossings { AreCrossings self.now result.now }
        ensures within { All (IsWithin (length (least_labels self.now))) result.now }
    {
        &self.components.crossings
    }

    /// The linking number of two components, which are 1 to `components()` and different: half the sum of
    /// the signs of the crossings between them, rounded toward zero. It is 1 for the Hopf link.
    pub fn linking(&self, i: u32, j: u32) -> i64
        requires first_i { 1 ≤ i }
        requires last_i { i ≤ length (least_labels self.now) }
        requires first_j { 1 ≤ j }
        requires last_j { j ≤ length (least_labels self.now) }
        requires different { i ≢ j }
        ensures { result ≡ linking self.now i j }
    {
        sign_sum(&self.components.crossings, i, j) / 2
    }

    /// The sum of the signs of the crossings between two components, which are 1 to `components()`: 2 for the
    /// Hopf link, and the writhe where both are one. Half of it is the linking number.
    pub fn sign_sum(&self, i: u32, j: u32) -> i64
        requires first_i { 1 ≤ i }
        requires last_i { i ≤ length (least_labels self.now) }
        requires first_j { 1 ≤ j }
        requires last_j { j ≤ length (least_labels self.now) }
        ensures { result ≡ sign_sum self.now i j }
    {
        sign_sum(&self.components.crossings, i, j)
    }

    /// How many places there are: the slots of the crossings, numbered from 0 through the crossings in their
    /// order. A loop has none.
    pub fn places(&self) -> u32
        ensures count { result ≡ length (place_labels self.now) }
        ensures few { result ≤ 1024 }
    {
        self.places.labels.len() as u32
    }

    /// The label that stands at a place.
    pub fn label_at(&self, place: u32) -> u32
        requires { place < length (place_labels self.now) }
        ensures { result ≡ slice_index (place_labels self.now) place }
    {
        self.places.labels[place as usize]
    }

    /// The first place of a label, or `None` where it stands at none: where it is a loop's, or not in the diagram.
    pub fn first_place(&self, label: u32) -> Option<u32>
        ensures place { result ≡ first_place (place_labels self.now) label }
        ensures in_range { IfSome result (λ place. place < length (place_labels self.now)) }
    {
        match self.places.firsts.get(&label) {
            Some(place) => Some(*place as u32),
            None => None,
        }
    }

    /// The other place of the label that stands at a place: across the edge.
    pub fn other_place(&self, place: u32) -> u32
        requires { place < length (place_labels self.now) }
        ensures place { result ≡ other_place (place_labels self.now) place }
        ensures in_range { result < length (place_labels self.now) }
    {
        self.places.others[place as usize] as u32
    }

    /// The face of a place, by its least place: two places lie in one face exactly where it is the same.
    pub fn face_of(&self, place: u32) -> u32
        requires { place < length (place_labels self.now) }
        ensures face { result ≡ face_of (crossings_of self.now) place }
        ensures in_range { result < length (place_labels self.now) }
    {
        self.places.faces[place as usize] as u32
    }

    /// Whether the walk of a place's component enters its crossing at this place. Each component is walked from
    /// the second place of its least label to the first.
    pub fn enters(&self, place: u32) -> bool
        requires { place < length (place_labels self.now) }
        ensures { result ≡ enters self.now place }
    {
        self.components.entered[place as usize]
    }
}

/// A net that was found planar.
///
/// Contracts see it as the list of its items. `IsPlanar` says what each such list keeps.
#[derive(Drop, Debug)]
pub struct PlanarNet {
    net: NetDiagram,
}

impl Model for PlanarNet {
    ghost use Rattle.std.specs.Prelude.{List};
    ghost use Rattle.pd_reader.specs.declared.item.NetItem.{NetItem};

    ghost Value = { List NetItem };

    ghost view = { λ planar. planar.net };

    ghost use Rattle.planar_check.specs.Places.{net_item_slots};
    ghost use Rattle.planar_check.specs.Planar.{IsPlanar};

    ghost invariant = { λ planar. IsPlanar net_item_slots planar.net };
}

/// The net, where it is planar: where it has E - N + 2k faces, for E edges between places, N crossings
/// and vertices, and k connected pieces of these.
///
/// The refusals are those of `check`: 1 and 3 for `Y[1,2,3]` and another `Y[1,2,3]`.
pub fn check_net(alloc: Global, net: NetDiagram) -> Result<PlanarNet, PlanarFault>
    ensures made { IfOk result (λ planar. planar ≡ net) }
    ensures ok { OnOk result (planar_refusal net_item_slots net ≡ None) }
    // A refusal has its reason, but where memory runs out.
    ensures refused { IfErr result (λ fault. (fault ≡ PlanarFault.Memory) ⊎ (planar_refusal net_item_slots net ≡ Some fault)) }
{
    let _places = check_items(alloc, net.items())?;
    Ok(PlanarNet { net })
}

impl PlanarNet {
    /// The net that was checked.
    pub fn net(&self) -> &NetDiagram
        ensures net { result.now ≡ self.now }
        ensures planar { IsPlanar net_item_slots self.now }
    {
        &self.net
    }
}
