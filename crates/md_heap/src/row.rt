// What a heap keeps of a cell beside its parts.

/// A cell's head, and where its parts begin. They end where the next cell's begin.
#[derive(Clone, Copy)]
pub struct Row {
    pub head: u32,
    pub first: u32,
}
