//! What is known of a URL.

/// Why a URL has no value.
#[derive(Clone, Copy, Debug, PartialEq, Eq)]
pub enum NoValue {
    /// There is none.
    Missing,
    /// What should give it failed.
    Failed,
}

/// What is known of a URL.
#[derive(Clone, Copy, Debug, PartialEq, Eq, Drop)]
pub enum KeptAnswer<V> {
    /// Its value.
    Known(V),
    /// That it has none, for this.
    NoneKnown(NoValue),
    /// Nothing: its value is to be put, under the URL's key.
    Wanted,
}
