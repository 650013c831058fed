// The sections of the text.
ghost use Rattle.std.specs.Prelude.{◌≡◌};
ghost use Rattle.md_dump.specs.Lines.{name_of, least_of};

/// A section of the text: a list of the profile behind the number of its members.
#[derive(Clone, Copy, PartialEq, Eq)]
pub(crate) enum Section {
    Modules,
    Procs,
    Sites,
    Contexts,
    Links,
}

impl Section {
    /// The word with which it begins.
    pub(crate) fn name(self) -> &'static [u8]
        ensures { result.now ≡ name_of self }
    {
        match self {
            Section::Modules => b"modules",
            Section::Procs => b"procs",
            Section::Sites => b"sites",
            Section::Contexts => b"contexts",
            Section::Links => b"links",
        }
    }

    /// The least number of its members.
    pub(crate) fn least(self) -> u32
        ensures { result ≡ least_of self }
    {
        match self {
            Section::Sites => 0,
            Section::Modules | Section::Procs | Section::Contexts | Section::Links => 1,
        }
    }
}
