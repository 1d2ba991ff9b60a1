// The flat value of the machine of pieces, and the flat file that a log makes by the history's definitions: where the plans of
// turns are what the history says of their calls' commits, what the machine knows of a closed place is what the flat file has there.
//
// `Plans` says what the plans have to be, entry by entry, and `Laws` what follows of every log for a directory; `Stripes` and
// `StripeLaws` say it of a file. Nothing of it runs.
#![tactic(auto)]

ghost use Rattle.ec_law_flats.specs.Laws.{FlatNameLaws};
ghost use Rattle.ec_law_flats.specs.StripeLaws.{FlatStripeLaws};

/// After every log in which the calls are plain and built, keep the conduct in order and send the PostOps of a gfid in one turn: the
/// machine of a directory is at the version of the flat file, and has each of its closed names closed, and known to lead to the
/// same child. So the bricks that hold the machine's closed names hold those of the flat file. It does nothing when it runs.
#[tactic(auto, using(crate::proofs::NameLaws::flat_name_laws))]
pub fn flat_name_laws()
    ensures { FlatNameLaws }
{}

/// After every such log in which besides the data requests of a call on the gfid are of the turn of its PostOps, and a cut keeps no
/// more than it leaves: the machine of a file is at the version of the flat file, and has each of its closed stripes closed, with
/// each of its known bytes. So the bricks that hold the code of the machine's closed stripes hold that of the flat file's, where the
/// machine codes with the rows of the volume's algorithm. It does nothing when it runs.
#[tactic(auto, using(crate::proofs::StripeFlats::flat_stripe_laws))]
pub fn flat_stripe_laws()
    ensures { FlatStripeLaws }
{}
