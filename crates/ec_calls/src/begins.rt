// Any call as one that clients make.

use crate::any::AnyCall;
use ec_bank::RowTimes;
use ec_clients::Begins;
use ec_txn::{Ctx, Sends};
use ec_wire::Op;
use std::alloc::{AllocError, Global};

impl<T: RowTimes> Begins<T> for AnyCall {
    fn begin(
        alloc: Global,
        ctx: &Ctx,
        op: &Op,
        next: u64,
        sends: &mut Sends,
    ) -> Result<AnyCall, AllocError> {
        AnyCall::begin(alloc, ctx, op, None, next, sends)
    }
}
