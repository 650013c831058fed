// What names are looked up by.

/// A functor's name and the number of its arguments.
#[derive(Clone, Copy, PartialEq, Eq, Hash)]
pub struct FunctorKey<'a> {
    pub name: &'a [u8],
    pub arity: usize,
}

/// A predicate's name, with its module where that is another than the file's.
#[derive(Clone, Copy, PartialEq, Eq, Hash)]
pub struct PredicateKey<'a> {
    pub qualifier: Option<&'a [u8]>,
    pub name: &'a [u8],
}
