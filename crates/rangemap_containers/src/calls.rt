//! The calls on a list of containers that every container has, as values.

/// A call that every container has, over ranges of type `R`. It names a container by its place in
/// the list.
#[derive(Debug, Drop)]
pub enum Change<R, V> {
    /// Makes an empty container, by `new_with_step_fns`.
    New,
    /// Gives the keys of the range the value, in the container at the place.
    Insert { at: usize, range: R, value: V },
    /// Takes the keys of the range out of the container at the place.
    Remove { at: usize, range: R },
    /// Empties the container at the place.
    Clear { at: usize },
    /// Makes a clone of the container at the place.
    Clone { at: usize },
}
