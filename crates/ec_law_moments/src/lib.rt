// What turns were told and given at their moments, and what heals leave of their sinks.
//
// `Then` says what a turn's Query tells of the flat version at its moment, `Reads` puts readers and heals beside the machine
// of pieces, `Windows` says what the windows of a heal keep to, and `Reference` what the record of a sink is as its mark is
// taken away. Nothing of it runs.
#![tactic(auto)]

ghost use Rattle.ec_law_pieces.specs.File.{Form};
ghost use Rattle.ec_law_moments.specs.Reads.{ReadLaws};
ghost use Rattle.ec_law_moments.specs.Reference.{SinkLaws};
ghost use Rattle.ec_law_moments.specs.WorkedSinks.{WorkedSinks};

/// A turn to which K bricks told one version was told the flat version of its moment, and the pieces that it was given of
/// places that were closed then are codes of one value with the known units. It does nothing when it runs.
pub fn read_laws<P, V, C, U, S>()
    ensures { (form : Form P V C U S) → ReadLaws form }
{}

/// As a heal takes the mark of a sink away, the sink has the head of the flat file at the moment of the heal's last window and,
/// at each place that was closed then, the code of the value that the good group coded, unless a data request was executed on
/// it at the sink since; where that window's Inode grant still stands, none was. Each place, an open one too, is the code of what
/// the heal's window that copied it had read, unless a data request was executed since the moment of that window. It does
/// nothing when it runs.
pub fn sink_laws<P, V, C, U, S>()
    ensures { (form : Form P V C U S) → SinkLaws form }
{}

/// A run of readers and of a heal of two windows, beside a writer that goes no further than its data. It does nothing when it runs.
#[tactic(auto, using(crate::proofs::WorkedSinks::worked))]
pub fn worked_sinks()
    ensures { WorkedSinks }
{}
