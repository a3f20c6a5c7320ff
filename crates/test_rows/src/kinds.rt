//! The kinds of rows.

/// What a row asks.
#[derive(Clone, Copy, Drop)]
pub(crate) enum Kind {
    Primitives,
    Records,
    Batches,
    Merge,
    Target,
    Completes,
    Eligible,
    Elect,
    Build,
    Place,
    Sessions,
    Messages,
    Heartbeats,
    Apply,
    Images,
    Fold,
    Dump,
    Balance,
    Moves,
    Nodes,
}

/// Each kind, with the word that its rows begin with.
pub(crate) const KINDS: [(Kind, &str); 20] = [
    (Kind::Primitives, "primitives"),
    (Kind::Records, "records"),
    (Kind::Batches, "batches"),
    (Kind::Merge, "merge"),
    (Kind::Target, "target"),
    (Kind::Completes, "completes"),
    (Kind::Eligible, "eligible"),
    (Kind::Elect, "elect"),
    (Kind::Build, "build"),
    (Kind::Place, "place"),
    (Kind::Sessions, "sessions"),
    (Kind::Messages, "messages"),
    (Kind::Heartbeats, "heartbeats"),
    (Kind::Apply, "apply"),
    (Kind::Images, "images"),
    (Kind::Fold, "fold"),
    (Kind::Dump, "dump"),
    (Kind::Balance, "balance"),
    (Kind::Moves, "moves"),
    (Kind::Nodes, "nodes"),
];

impl Kind {
    /// The kind whose rows begin with this word.
    pub(crate) fn of(word: &str) -> Option<Kind> {
        for (kind, name) in &KINDS {
            if *name == word {
                return Some(*kind);
            }
        }
        None
    }
}
