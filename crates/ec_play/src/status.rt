// How a run ended.
ghost use Rattle.std.specs.Prelude.{◌≡◌};

use ec_attr::{Config, Gfid};
use ec_script::LineFault;
use ec_volfile::VolumeFault;
use ec_world::Refused;
use std::fmt;

/// How a run ended; the program ends with the number of its status.
#[derive(Clone, Copy, Debug, PartialEq, Eq)]
pub enum Status {
    /// The script was read to its end, and all was written.
    Done,
    /// Line number `line`, from 1, is the first that isn't in the grammar or whose event is refused.
    BadScript { line: u64, why: ScriptWhy },
    /// The first fault of the volume file is at line number `line`, from 1, or it is too long, with `line` 0.
    BadVolume { line: u64, why: VolumeFault },
    /// The words are no command line.
    BadWords,
    /// The source of the volume file or of the script failed.
    ReadFault,
    /// The output's sink failed, or took nothing.
    WriteFault,
    /// The bricks aren't those of the volume.
    WrongBricks(BricksWhy),
    /// The store of this brick failed while the bricks were opened.
    StoreFault(u8),
    /// Memory ran out.
    NoMemory,
}

/// What is wrong with a line. Neither is ever want of memory.
#[derive(Clone, Copy, Debug, PartialEq, Eq)]
pub enum ScriptWhy {
    /// It isn't in the grammar.
    Line(LineFault),
    /// Its event is refused.
    Event(Refused),
}

/// What is wrong with the bricks.
#[derive(Clone, Copy, Debug, PartialEq, Eq)]
pub enum BricksWhy {
    /// There are `have` of them, and the volume has `want`.
    Count { have: u64, want: u64 },
    /// A head of this brick has this config, which isn't the volume's.
    Config { brick: u8, config: Config },
    /// The head of this gfid has numbers that no brick writes, or the gfid is none.
    Head { brick: u8, gfid: Gfid },
}

impl Status {
    ghost use Rattle.ec_play.specs.Statuses.{number_of_status};

    /// The number with which the program ends.
    pub fn number(&self) -> u8
        ensures { result ≡ number_of_status self.now }
    {
        match self {
            Status::Done => 0,
            Status::BadScript { .. } => 1,
            Status::BadVolume { .. } => 2,
            Status::BadWords => 3,
            Status::ReadFault => 4,
            Status::WriteFault => 5,
            Status::WrongBricks(_) => 6,
            Status::StoreFault(_) => 7,
            Status::NoMemory => 8,
        }
    }
}

impl fmt::Display for Status {
    fn fmt<W: fmt::Write>(&self, f: &mut fmt::Formatter<W>) -> fmt::Result {
        match self {
            Status::Done => write!(f, "done"),
            Status::BadScript { line, why } => write!(f, "script line {line}: {why}"),
            Status::BadVolume { line, why } => write!(f, "volume line {line}: {why}"),
            Status::BadWords => write!(f, "bad words"),
            Status::ReadFault => write!(f, "read fault"),
            Status::WriteFault => write!(f, "write fault"),
            Status::WrongBricks(why) => write!(f, "wrong bricks: {why}"),
            Status::StoreFault(brick) => write!(f, "store fault at brick {brick}"),
            Status::NoMemory => write!(f, "no memory"),
        }
    }
}

impl fmt::Display for ScriptWhy {
    fn fmt<W: fmt::Write>(&self, f: &mut fmt::Formatter<W>) -> fmt::Result {
        match self {
            ScriptWhy::Line(fault) => write!(f, "{fault}"),
            ScriptWhy::Event(refused) => write_refused(f, *refused),
        }
    }
}

/// The refusal's name and its numbers.
fn write_refused<W: fmt::Write>(f: &mut fmt::Formatter<W>, refused: Refused) -> fmt::Result {
    match refused {
        Refused::NoMessage(no) => write!(f, "nomessage {no}"),
        Refused::NoneBetween { client, brick } => write!(f, "nonebetween {client} {brick}"),
        Refused::Busy(call) => write!(f, "busy {call}"),
        Refused::Idle(client) => write!(f, "idle {client}"),
        Refused::Dead(client) => write!(f, "dead {client}"),
        Refused::Down(brick) => write!(f, "down {brick}"),
        Refused::Up(brick) => write!(f, "up {brick}"),
        Refused::NoBrick(brick) => write!(f, "nobrick {brick}"),
        Refused::NotAsked { client, brick } => write!(f, "notasked {client} {brick}"),
        Refused::NotTearable(no) => write!(f, "nottearable {no}"),
        Refused::TooMany(bytes) => write!(f, "toomany {bytes}"),
        Refused::NotKeeping(client) => write!(f, "notkeeping {client}"),
        Refused::Unbuilt => write!(f, "unbuilt"),
        Refused::NoMemory => write!(f, "nomemory"),
    }
}

impl fmt::Display for BricksWhy {
    fn fmt<W: fmt::Write>(&self, f: &mut fmt::Formatter<W>) -> fmt::Result {
        match self {
            BricksWhy::Count { have, want } => write!(f, "count {have} {want}"),
            BricksWhy::Config { brick, config } => {
                write!(f, "config {brick} ")?;
                write_hex(f, &config.to_bytes())
            }
            BricksWhy::Head { brick, gfid } => write!(f, "head {brick} {}", gfid.0),
        }
    }
}

/// Two hexadecimal digits for each byte.
fn write_hex<W: fmt::Write>(f: &mut fmt::Formatter<W>, bytes: &[u8]) -> fmt::Result {
    for byte in bytes {
        write!(f, "{byte:02x}")?;
    }
    Ok(())
}
