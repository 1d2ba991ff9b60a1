// The phases of calls and their words.
ghost use Rattle.std.specs.Prelude.{◌≡◌, ◌≢◌, Some, None, IfSome};
ghost use Rattle.ec_wire.specs.Phases.{phase_among, phase_word};
ghost use Rattle.ec_wire.specs.declared.phase.Phase.{Phase};

/// A phase of a call: what it asks bricks for at one time. The phases with a 2 are those on the second gfid of a call.
#[derive(Clone, Copy, Debug, PartialEq, Eq)]
pub enum Phase {
    Heal,
    Lock,
    Query,
    Name,
    Names,
    Pre,
    Read,
    Make,
    Write,
    Trim,
    Entry,
    Post,
    Clear,
    Made,
    Unmake,
    Mark,
    Copy,
    Unmark,
    Lock2,
    Query2,
    Name2,
    Pre2,
    Entry2,
    Post2,
    Clear2,
    Scan,
    List,
    Dirs,
    Kinds,
    Walk,
    Asks,
    Probe,
    Shed,
}

/// Every phase once.
const PHASES: [Phase; 33] = [
    Phase::Heal,
    Phase::Lock,
    Phase::Query,
    Phase::Name,
    Phase::Names,
    Phase::Pre,
    Phase::Read,
    Phase::Make,
    Phase::Write,
    Phase::Trim,
    Phase::Entry,
    Phase::Post,
    Phase::Clear,
    Phase::Made,
    Phase::Unmake,
    Phase::Mark,
    Phase::Copy,
    Phase::Unmark,
    Phase::Lock2,
    Phase::Query2,
    Phase::Name2,
    Phase::Pre2,
    Phase::Entry2,
    Phase::Post2,
    Phase::Clear2,
    Phase::Scan,
    Phase::List,
    Phase::Dirs,
    Phase::Kinds,
    Phase::Walk,
    Phase::Asks,
    Phase::Probe,
    Phase::Shed,
];

/// The word of a phase, as scripts and answers have it.
pub fn phase_word(phase: Phase) -> &'static str
    ensures { result.now ≡ phase_word phase }
{
    match phase {
        Phase::Heal => "heal",
        Phase::Lock => "lock",
        Phase::Query => "query",
        Phase::Name => "name",
        Phase::Names => "names",
        Phase::Pre => "pre",
        Phase::Read => "read",
        Phase::Make => "make",
        Phase::Write => "write",
        Phase::Trim => "trim",
        Phase::Entry => "entry",
        Phase::Post => "post",
        Phase::Clear => "clear",
        Phase::Made => "made",
        Phase::Unmake => "unmake",
        Phase::Mark => "mark",
        Phase::Copy => "copy",
        Phase::Unmark => "unmark",
        Phase::Lock2 => "lock2",
        Phase::Query2 => "query2",
        Phase::Name2 => "name2",
        Phase::Pre2 => "pre2",
        Phase::Entry2 => "entry2",
        Phase::Post2 => "post2",
        Phase::Clear2 => "clear2",
        Phase::Scan => "scan",
        Phase::List => "list",
        Phase::Dirs => "dirs",
        Phase::Kinds => "kinds",
        Phase::Walk => "walk",
        Phase::Asks => "asks",
        Phase::Probe => "probe",
        Phase::Shed => "shed",
    }
}

/// The first of these phases that has this word.
#[tactic(auto, unfolding(crate::specs::Phases::phase_among))]
fn phase_among(phases: &[Phase], word: &[u8]) -> Option<Phase>
    ensures { result ≡ phase_among phases.now word.now }
{
    for phase in phases {
        if phase_word(*phase).as_bytes() == word {
            return Some(*phase);
        }
    }
    None
}

/// The phase that has this word.
pub fn phase_of(word: &[u8]) -> Option<Phase>
    ensures word { IfSome result (λ p. phase_word p ≡ word.now) }
    ensures reads_back { (p : Phase) → word.now ≡ phase_word p → result ≡ Some p }
    ensures none { result ≡ None → (p : Phase) → phase_word p ≢ word.now }
{
    phase_among(&PHASES, word)
}
