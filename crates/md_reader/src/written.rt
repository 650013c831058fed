// Names as they are written.
ghost use Rattle.std.specs.Prelude.{◌≤◌, length};
ghost use Rattle.std.specs.Option.{ForSome};

/// A name as it is written, with its qualifier, if it has one.
#[derive(Clone, Copy)]
pub(crate) struct Written<'a> {
    pub qualifier: Option<&'a [u8]>,
    pub name: &'a [u8],
    /// Neither part is empty.
    pub ghost named: { 1 ≤ length name.now },
    pub ghost qualified: { ForSome qualifier (λ qualifier. 1 ≤ length qualifier.now) },
}
