// Each chunk of a request has 512 bytes, since a chunk has no other number of them.
ghost use Rattle.ec_history.specs.IsRun.{AreChunks};

use ec_wire::Request;

/// The chunks of a request are chunks, which a run of entries asks of each request that is sent. It does nothing when it
/// runs but to go through them.
pub(crate) fn are_chunks(request: &Request)
    ensures { AreChunks request.now }
{
    if let Request::WriteChunks { chunks, .. } = request {
        for chunk in chunks.items() {
            let _ = chunk.bytes();
        }
    }
}
