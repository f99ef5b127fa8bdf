//! The laws of boxes: each function has an empty body, and its contract is the law. They are stated in `specs/Laws.antt`.

ghost use Rattle.box_laws.specs.Laws.{ProjectorBoxLaw, ProjectorCurlLaw, CurlFactorLaw, WordTracesLaw, HalfTurnedBoxLaw, ClosedBoxLaw};

/// A projector is a box that hooks kill.
pub fn projector_box()
    ensures { ProjectorBoxLaw }
{}

/// The coloured curl beside a projector's node, with its factor.
pub fn projector_curl()
    ensures { ProjectorCurlLaw }
{}

/// That factor is mu_n of the parameters.
pub fn curl_factor()
    ensures { CurlFactorLaw }
{}

/// The value of a closed network of a word is the word's trace.
pub fn word_traces()
    ensures { WordTracesLaw }
{}

/// The sides of a projector's node may change places.
pub fn half_turned_box()
    ensures { HalfTurnedBoxLaw }
{}

/// A box closed on itself is worth the closure of its element.
pub fn closed_box()
    ensures { ClosedBoxLaw }
{}
