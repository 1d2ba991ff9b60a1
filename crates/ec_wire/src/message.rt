// A message between a client and a brick.
ghost use Rattle.std.specs.Prelude.{◌≡◌, IfOk};

use crate::reply::Reply;
use crate::request::Request;
use std::alloc::AllocError;

/// A message by its number, from 1 on in the order of sending, with the call that it belongs to, and between whom it
/// goes. A reply belongs to the call of its request, and a Release to the call of its Ask.
#[derive(Debug, Drop)]
pub struct Message {
    pub no: u64,
    pub call: u32,
    pub client: u8,
    pub brick: u8,
    pub body: Body,
}

/// Which way a message goes, and what it says. `re` is the number of the request that is replied to.
#[derive(Debug, Drop)]
pub enum Body {
    ToBrick(Request),
    ToClient { re: u64, reply: Reply },
}

impl Body {
    /// An equal value.
    pub fn copy(&self) -> Result<Body, AllocError>
        ensures { IfOk result (λ b. b ≡ self.now) }
    {
        match self {
            Body::ToBrick(request) => Ok(Body::ToBrick(request.copy()?)),
            Body::ToClient { re, reply } => Ok(Body::ToClient {
                re: *re,
                reply: reply.copy()?,
            }),
        }
    }
}

impl Message {
    /// An equal value.
    pub fn copy(&self) -> Result<Message, AllocError>
        ensures { IfOk result (λ m. m ≡ self.now) }
    {
        Ok(Message {
            no: self.no,
            call: self.call,
            client: self.client,
            brick: self.brick,
            body: self.body.copy()?,
        })
    }
}
