/// The field of which the next byte is a part, with the numbers of its thing that came before it.
#[derive(Clone, Copy)]
pub(crate) enum Part {
    /// A byte of the magic, by its place, or the version, which stands behind it at 7.
    Magic(u8),
    Flag,
    Number(Field),
    /// The length of a name.
    Length(Named),
    Name(Named),
    /// The arity of a procedure of this module.
    Arity(u32),
    /// Behind the last link.
    End,
}

/// What has a name.
#[derive(Clone, Copy)]
pub(crate) enum Named {
    Module,
    /// A procedure of this module.
    Proc(u32),
}

/// A number of the file.
#[derive(Clone, Copy)]
pub(crate) enum Field {
    ModuleCount,
    ProcCount,
    ProcModule,
    SiteCount,
    SiteOwner,
    /// Behind the owner.
    SiteLine(u32),
    /// Behind owner and line.
    SiteCallee(u32, u32),
    ContextCount,
    ContextProc,
    LinkCount,
    RootCaller,
    RootSite,
    RootCallee,
    RootOwn,
    LinkCaller,
    /// Behind the caller.
    LinkSite(u32),
    /// Behind caller and site.
    LinkCallee(u32, u32),
    /// Behind caller, site and callee.
    LinkOwn(u32, u32, u32),
}

/// A version of the file.
#[derive(Clone, Copy)]
pub(crate) enum Version {
    First,
    Second,
}

impl Version {
    ghost use Rattle.std.specs.Prelude.{◌≡◌, ◌≤◌};
    ghost use Rattle.md_deepfile.specs.State.{width};

    /// How many counts a link has.
    pub(crate) fn counts(self) -> u8
        ensures counts { result ≡ width self }
        ensures some { 1 ≤ result }
        ensures few { result ≤ 7 }
    {
        match self {
            Version::First => 6,
            Version::Second => 7,
        }
    }
}

/// What stands for no number.
pub(crate) const NONE: u32 = u32::MAX;
