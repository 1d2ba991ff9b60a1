// Whither messages go.

/// Whither a message goes: to a brick, or to a client, in its call, as a brick's reply to request `re`.
#[derive(Clone, Copy, Debug, PartialEq, Eq)]
pub enum Address {
    Brick(u8),
    Client {
        client: u8,
        call: u32,
        brick: u8,
        re: u64,
    },
}
