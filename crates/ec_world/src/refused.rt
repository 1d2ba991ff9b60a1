// Why events are refused.

/// Why an event is refused. The number is that of the message in NoMessage and NotTearable, of the call in Busy, of
/// bytes in TooMany, of the client in Idle, Dead and NotKeeping, and of the brick in Down, Up and NoBrick.
#[derive(Clone, Copy, Debug, PartialEq, Eq)]
pub enum Refused {
    NoMessage(u64),
    NoneBetween { client: u8, brick: u8 },
    Busy(u32),
    Idle(u8),
    Dead(u8),
    Down(u8),
    Up(u8),
    NoBrick(u8),
    NotAsked { client: u8, brick: u8 },
    NotTearable(u64),
    TooMany(u64),
    NotKeeping(u8),
    /// The event or the call isn't built.
    Unbuilt,
    NoMemory,
}
