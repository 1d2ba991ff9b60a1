// What a call is to the history of a run: its own entries, its account, which is what it has sent and heard, what it
// may send and answer by it, and the form in which a table says what it does.
//
// Nothing of this runs. A call keeps what it needs of its account, and its crate shows that it stands for the account.
//
// Promised, by `conduct_laws`: a front of a history that keeps the conduct keeps it; no request goes under a grant after
// its Release, after the answer, or to a brick that is waited for; late replies count for nothing; quorums share a brick
// and there is one good group; whole histories of a setattr, a write, a create and a heal keep the conduct, and for most
// rules a short history breaks it.
#![tactic(auto)]

mod kept;
mod laws;

pub use kept::Kept;
pub use laws::conduct_laws;
