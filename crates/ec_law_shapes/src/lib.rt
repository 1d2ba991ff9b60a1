// Shapes along a log: the size and the attribute of records, as the machine of pieces has them beside the bricks.
//
// `Shapes` says how the machine stands to the records, to what calls were told of heads and to what their PostOps set, `Shadows`
// what it keeps whatever becomes of data, `Fitting` what is asked of the plans of turns at each entry, and `Laws` what follows.
// Nothing of it runs.
#![tactic(auto)]

ghost use Rattle.ec_law_data.specs.Forms.{Shape};
ghost use Rattle.ec_law_data.specs.Link.{Fits};
ghost use Rattle.ec_law_data.specs.Reading.{Reading};
ghost use Rattle.ec_law_shapes.specs.Laws.{ShapeLaws};

/// In every log that begins with bricks that stand for a tree, in which no call heals or sweeps, and each call keeps the conduct
/// in order and leaves no grants, read in any way that fits the bricks: let the plans have the shape of its call's group where a
/// turn takes its ballot, and what the call makes of that shape where it plans its commit. Then after each entry each unmarked
/// record has the shape that the machine has for it, and so has each head that a call was told. Where a turn takes its ballot,
/// its whole group told that shape, and each record is made with the shape of the first: of this, data need owe nothing more. It
/// does nothing when it runs.
#[tactic(auto, using(crate::proofs::Logs::laws))]
pub fn shape_laws<P, V, C, U>()
    ensures { (R : Reading P V C U Shape) → Fits R → ShapeLaws R }
{}
