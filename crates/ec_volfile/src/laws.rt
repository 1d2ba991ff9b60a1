// The laws of the grammar.
ghost use Rattle.ec_volfile.specs.Laws.{VolumeFileLaws};

/// The laws of volume files, for the proofs that stand on them. It does nothing when it runs.
pub fn volume_file_laws()
    ensures { VolumeFileLaws }
{}
