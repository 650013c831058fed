// Where something lies among others.

/// What lies from one place up to another.
#[derive(Clone, Copy)]
pub(crate) struct Span {
    pub from: usize,
    pub to: usize,
}
