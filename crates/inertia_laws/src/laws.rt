//! The laws of inertia: each function has an empty body, and its contract is the law. They are stated in `specs/Laws.antt`.

ghost use Rattle.inertia_laws.specs.Laws.{EliminationCertifies, SylvesterLaw, BorderCounts, EquationsSolvable, LowestTerms, CertificateIndices, SizeAlone, CongruenceLaw};

/// The elimination of a symmetric matrix, over fractions of any size, gives a certificate of its inertia.
pub fn elimination_certifies()
    ensures { EliminationCertifies }
{}

/// Sylvester's law of inertia: any two certificates of one matrix have the same counts of positive, negative and zero
/// entries.
pub fn sylvester_law()
    ensures { SylvesterLaw }
{}

/// A matrix with one more place, e on its diagonal and 0 elsewhere in its row and column, has one more entry of the sign
/// of e, and as many of the other signs.
pub fn border_counts()
    ensures { BorderCounts }
{}

/// Linear equations in whole numbers with right sides 0, fewer than unknowns, have a solution in whole numbers other
/// than zero.
pub fn equations_solvable()
    ensures { EquationsSolvable }
{}

/// A reduced fraction is in lowest terms, and has the same value.
pub fn lowest_terms()
    ensures { LowestTerms }
{}

/// Each certificate of a symmetric matrix has the matrix's indices b+, b- and nullity as its counts.
pub fn certificate_indices()
    ensures { CertificateIndices }
{}

/// The certificates, the elimination, the step in which it leaves 128 bits and the indices of a matrix depend on its
/// entries below the size alone.
pub fn size_alone()
    ensures { SizeAlone }
{}

/// Where C of whole numbers has an inverse of whole numbers, a matrix and C-transposed times it times C have certificates
/// with the same counts, and the same indices.
pub fn congruence_law()
    ensures { CongruenceLaw }
{}
