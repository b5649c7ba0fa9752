use std::collections::LinkedList;

/// One call of a run, with its answer and the state after it. Its ticket is its index in the run.
pub struct Entry<S, C, A> {
    pub call: C,
    pub answer: A,
    pub after: S,
}

// What a seat knows. No value of it is made.
pub struct View<S, C, A> {
    // The first state of the cell.
    pub first: Option<S>,
    // The entries that it has seen, each with whether it is the seat's own.
    pub seen: LinkedList<(Entry<S, C, A>, bool)>,
    // What a seat that was just joined had seen.
    pub joined: LinkedList<(Entry<S, C, A>, bool)>,
    pub ticket: Option<u64>,
    // Whether it has the state.
    pub lifted: bool,
    // Its share is part / 2 ^ halvings.
    pub part: u64,
    pub halvings: u64,
}
