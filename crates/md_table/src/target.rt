// What a word in a table names.

/// What has a page of its own.
#[derive(Clone, Copy)]
pub(crate) enum Target {
    /// A procedure, by its full name.
    Proc,
    /// A context, by its number.
    Context,
    /// A clique, by its number.
    Clique,
    /// A module, by its name.
    Module,
}
