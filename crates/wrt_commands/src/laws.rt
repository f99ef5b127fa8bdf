//! Laws over the definitions alone: the facts that these functions ensure, which do nothing.

ghost use Rattle.wrt_commands.specs.Laws.{OutcomesAreUnique, OutcomesExist, ReportsAreOfBrackets, ReportsAreOfColouredValues, ReportsAreOfNetValues, ReportsAreOfSurgeryValues, ReportsAreOfBraidTraces, ReportsAreOfScripts, ReportsAreOfTetrahedra, SameResidues};

/// The words and the bytes of the input come to at most one outcome: so what `run` says of an outcome says what the
/// program prints.
pub fn outcomes_are_unique()
    ensures { OutcomesAreUnique }
{}

/// The words and the bytes of the input come to an outcome, whatever they are: by `outcomes_are_unique` the outcome
/// is a function of them.
pub fn outcomes_exist()
    ensures { OutcomesExist }
{}

/// The residue of a report is the bracket of the diagram, in whatever order its crossings are taken.
pub fn reports_are_of_brackets()
    ensures { ReportsAreOfBrackets }
{}

/// The residue of a report of a diagram with colours is its value with these colours, in whatever order its crossings are taken.
pub fn reports_are_of_coloured_values()
    ensures { ReportsAreOfColouredValues }
{}

/// The residue of a report of a net with colours is its value with these colours, in whatever order its items are taken.
pub fn reports_are_of_net_values()
    ensures { ReportsAreOfNetValues }
{}

/// The residue of a report of a diagram with framings is its surgery value, in whatever order its crossings are taken and by however
/// many workers.
pub fn reports_are_of_surgery_values()
    ensures { ReportsAreOfSurgeryValues }
{}

/// Two runs of one task, at the same parameters and bytes, that both end with a report, print the same residues, whatever
/// the orders of the crossings and the numbers of workers, and with turns or without.
pub fn same_residues()
    ensures { SameResidues }
{}

/// The residue of a report of a braid is the bracket of its closure.
pub fn reports_are_of_braid_traces()
    ensures { ReportsAreOfBraidTraces }
{}

/// A report of a script has a line for each of its diagrams. Without colours and framings a line is the bracket, and each but the first is the
/// step's factor times the one before it, modulo m. With colours a line is the value with these; each `R2`, `R2Undo` and `R3` repeats
/// the line before it, each blow-up multiplies it by delta, and each `Curl` and `CurlUndo` on a component of colour n by `mu_n` to the
/// power of the curl of the step's factor, modulo m. With framings a line is the surgery value, and each blow-up repeats the line
/// before it.
pub fn reports_are_of_scripts()
    ensures { ReportsAreOfScripts }
{}

/// The residue of a report of tetrahedra is the sum of the weights over all colourings of their labels.
pub fn reports_are_of_tetrahedra()
    ensures { ReportsAreOfTetrahedra }
{}
