//! Colours of labels.

ghost use Rattle.std.specs.Prelude.{◌≡◌, ◌≤◌};
ghost use Rattle.tetra_sum.specs.Colourings.{colour_of, admits, allows_three, allows, are_allowed};

/// The colour of a label. A colouring of the first labels leaves the others without one.
pub(crate) fn colour_of(labels: &[u32], colours: &[u32], label: u32) -> Option<u32>
    ensures { result ≡ colour_of labels.now colours.now label }
{
    for i in 0..labels.len() {
        if labels[i] == label {
            return colours.get(i).copied();
        }
    }
    None
}

/// Whether x, y and z make an admissible vertex, and their sum is at most 2r-4.
fn admits(r: u32, x: u32, y: u32, z: u32) -> bool
    requires { 3 ≤ r }
    ensures { result ≡ admits r x y z }
{
    let (x, y, z) = (u64::from(x), u64::from(y), u64::from(z));
    let is_admissible = (x + y + z) % 2 == 0 && x <= y + z && y <= z + x && z <= x + y;
    is_admissible && x + y + z <= 2 * u64::from(r) - 4
}

/// Whether the face's three colours do so. A face that is not wholly coloured forbids nothing.
fn allows(r: u32, labels: &[u32], colours: &[u32], face: &[u32; 3]) -> bool
    requires { 3 ≤ r }
    ensures { result ≡ allows r labels.now colours.now face.now }
{
    let [a, b, c] = *face;
    let x = colour_of(labels, colours, a);
    let y = colour_of(labels, colours, b);
    let z = colour_of(labels, colours, c);
    match (x, y, z) {
        (Some(x), Some(y), Some(z)) => admits(r, x, y, z),
        _ => true,
    }
}

/// Whether each face's colours do so.
pub(crate) fn are_allowed(r: u32, labels: &[u32], colours: &[u32], faces: &[[u32; 3]]) -> bool
    requires { 3 ≤ r }
    ensures { result ≡ are_allowed r labels.now colours.now faces.now }
{
    for face in faces {
        if !allows(r, labels, colours, face) {
            return false;
        }
    }
    true
}
