// What a request brings about beside the records.

use ec_locks::WaiterList;
use ec_wire::Reply;

/// The reply of a request, if it has one; the content version of the head that was read, mark included, if one was read
/// and is there; and the waiters that were granted, in order.
#[derive(Debug, Drop)]
pub struct Effects {
    pub reply: Option<Reply>,
    pub version: Option<u64>,
    pub granted: WaiterList,
}
