// What can be asked for.
use md_base::{Measure, NoMemory, Text};
use md_people::Sort;

/// What is asked for.
#[derive(Debug, Drop)]
pub enum Query {
    /// What the profile is of, and how much it holds.
    Menu,
    /// The clique where the run began.
    Root,
    /// A clique, by its number.
    Clique(u32),
    /// Each procedure.
    Procs,
    /// The first `n` procedures by their own count of a measure.
    Top { by: Measure, n: u32 },
    /// A procedure, by its number.
    Proc(u32),
    /// Each module.
    Modules,
    /// A module, by its name.
    Module(Text),
    /// The first `n` procedures by their totals or own counts of a measure, with their shares.
    Hot { by: Measure, n: u32, sort: Sort },
    /// The cliques as a tree, those whose totals are at least so many thousandths of the whole.
    Tree { by: Measure, least: u32 },
    /// A flame graph: the stations of each context that has own counts; as a picture, the cliques whose totals are at least so many
    /// thousandths of the whole.
    Flame { by: Measure, least: u32 },
    /// The procedures and the modules in whose name a text is, with their shares of a measure.
    Find { by: Measure, text: Text },
    /// A context, by its number, with its stations and the links that start there.
    Context { by: Measure, id: u32 },
    /// The callers of a procedure, by its number, and what it calls.
    Callers { by: Measure, id: u32 },
    /// The same of the procedure of a full name.
    CallersNamed { by: Measure, name: Text },
    /// A procedure, by its full name.
    ProcNamed(Text),
    /// The clique of the first context of a procedure, by the full name of this.
    CliqueNamed(Text),
}

/// Why there is no query.
#[derive(Clone, Copy, Debug, PartialEq, Eq)]
pub enum QueryFault {
    /// Path and pairs are no query.
    BadQuery,
    NoMemory,
}

impl From<NoMemory> for QueryFault {
    ghost use Rattle.std.specs.Prelude.{◌≡◌};
    ghost use Rattle.md_query.specs.declared.query.QueryFault.TheVariants as fault;

    ghost from_gives = { λ _ e. e ≡ fault.NoMemory };

    fn from(_: NoMemory) -> QueryFault {
        QueryFault::NoMemory
    }
}
