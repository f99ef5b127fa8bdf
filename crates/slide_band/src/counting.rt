//! How many items a slide adds.

ghost use Rattle.std.specs.Prelude.{◌≡◌, ◌+◌, ◌*◌, ◌≤◌, length};
ghost use Rattle.slide_strands.specs.Strands.{has_one, has_two, crossings_with};

use slide_strands::Piece;

/// How many crossings more there are after component j is doubled: one for each crossing with one strand of j, three for
/// each with two.
pub(crate) fn added_crossings(pieces: &[Piece], j: u32) -> u64
    requires { length pieces.now ≤ 1000000 }
    ensures added { result ≡ crossings_with (has_one j) pieces.now + 3 * crossings_with (has_two j) pieces.now }
    ensures few { result ≤ 3 * length pieces.now }
{
    let mut added: u64 = 0;
    for piece in pieces {
        if let Piece::Crossed(under, over) = piece {
            added += match (under.component == j, over.component == j) {
                (true, true) => 3,
                (false, false) => 0,
                _ => 1,
            };
        }
    }
    added
}
