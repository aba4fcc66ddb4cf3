// What a look at a region comes to.

// Ended, with the clauses counted; or the short tape's words start there, and the children are to be visited.
#[derive(Clone, Copy)]
pub enum Seen {
    Done(u64),
    Open(usize),
}
