// What bricks answered.

use ec_attr::Head;

/// What a brick answered to a query: the head of its record, or that it has no record, or anything else.
#[derive(Clone, Copy, Debug, PartialEq, Eq)]
pub enum Given {
    Head(Head),
    NoInode,
    Other,
}

/// What each brick answered, None where it didn't.
#[derive(Clone, Copy, Debug)]
pub struct Answers {
    pub given: [Option<Given>; 31],
}
