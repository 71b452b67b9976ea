//! The results of polls.

/// The result of polling a state by reference.
#[derive(Debug, Drop, PartialEq, Eq)]
pub enum Polled<T> {
    /// The work is done.
    Ready(T),
    /// The source or the sink was not ready. Poll again once it is.
    Pending,
    /// A bounded part of the work was done. Poll again at once.
    Again,
    /// Memory allocation failed. Poll again, or give up.
    NoMemory,
}

/// The result of polling a state by value.
#[derive(Debug, Drop)]
pub enum Stepped<P, T, E> {
    /// The work is done.
    Done(T),
    /// The source or the sink was not ready. The state is returned.
    Pending(P),
    /// Memory allocation failed. The state is returned.
    NoMemory(P),
    /// The work stopped with an error. The state is returned.
    Failed(P, E),
}
