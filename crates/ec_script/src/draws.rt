// The numbers that a generated script is drawn from.
ghost use Rattle.std.specs.Prelude.{◌≡◌, ◌+◌, ◌*◌, ◌%◌, ◌^◌};
ghost use Rattle.ec_script.specs.Generator.{draws, drawn, state_after, stepped};

/// The sequence goes from one state to the next by this factor and this sum, modulo 2^64.
const FACTOR: u64 = 6364136223846793005;

const SUMMAND: u64 = 1442695040888963407;

/// The four numbers of a round, in the order in which they are drawn.
#[derive(Clone, Copy, Debug, PartialEq, Eq)]
pub struct Draws {
    pub a: u64,
    pub b: u64,
    pub c: u64,
    pub d: u64,
}

/// The state after this one.
#[tactic(auto, unfolding(crate::specs::Generator::stepped))]
fn stepped(x: u64) -> u64
    ensures { result ≡ stepped x }
{
    x.wrapping_mul(FACTOR).wrapping_add(SUMMAND)
}

/// Draws a number of at most 31 bits.
fn draw(x: &mut u64) -> u64
    ensures state { x.new ≡ stepped x.old }
    ensures value { result ≡ drawn x.new }
{
    *x = stepped(*x);
    *x >> 33
}

/// Draws the numbers of a round.
#[tactic(auto, unfolding(crate::specs::Generator::draws, crate::specs::Generator::state_after))]
pub fn draw_round(x: &mut u64) -> Draws
    ensures value { result ≡ draws x.old }
    ensures state { x.new ≡ state_after x.old }
{
    let a = draw(x);
    let b = draw(x);
    let c = draw(x);
    let d = draw(x);
    Draws { a, b, c, d }
}
