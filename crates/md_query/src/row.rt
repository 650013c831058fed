// Pages: what is on them, before it is a text.
use md_base::{CsdId, Measure, PdId, ProcId, SiteId, Text};
use md_cost::Sums;
use md_people::Sort;
use md_table::Table;
use std::marker::Model;

/// What a page is of.
#[derive(Drop)]
pub enum Title {
    /// What the profile is of, and how much it holds.
    Menu,
    /// A clique, by its number.
    Clique(u32),
    /// Each procedure.
    Procs,
    /// The first `n` procedures by their own count of a measure.
    Top { by: Measure, n: u32 },
    /// A procedure, by its number.
    Proc(u32),
    /// Each module.
    Modules,
    /// A module, by its number.
    Module(u32),
    /// The first `n` procedures by their totals or own counts of a measure, with their shares.
    Hot { by: Measure, n: u32, sort: Sort },
    /// The cliques as a tree, those whose totals are at least so many thousandths of the whole.
    Tree { by: Measure, least: u32 },
    /// A flame graph: the stations of each context that has own counts; as a picture, the cliques whose totals are at least so many
    /// thousandths of the whole.
    Flame { by: Measure, least: u32 },
    /// The procedures and the modules in whose name a text is, with their shares of a measure.
    Find { by: Measure, text: Text },
    /// A context of a procedure, by the numbers of both.
    Context { by: Measure, node: u32, proc: u32 },
    /// The callers of a procedure, and what it calls.
    Callers { by: Measure, id: u32 },
}

/// What a number on the menu counts.
#[derive(Clone, Copy, PartialEq, Eq)]
pub enum What {
    Contexts,
    Links,
    Cliques,
    Calls,
    Exits,
    Fails,
    Redos,
    Allocs,
    Words,
    Excps,
}

/// A row of a page.
#[derive(Drop)]
pub enum Row {
    /// The module of which the profile is.
    Main {
        module: u32,
    },
    /// Whether the run was finished.
    Finished(bool),
    /// How much there is of something.
    Number {
        what: What,
        n: u64,
    },
    /// The link that enters the clique of the page.
    Entered {
        link: CsdId,
        own: Sums,
    },
    /// The own counts of what the page is of.
    Own(Sums),
    /// The total of what the page is of.
    Total(Sums),
    /// A context of the clique.
    Context {
        node: PdId,
        own: Sums,
        total: Sums,
    },
    /// A link from the context above to another clique.
    Leaving {
        link: CsdId,
        own: Sums,
        total: Sums,
    },
    /// A link from the context above within the clique.
    Inside {
        link: CsdId,
        own: Sums,
    },
    /// A procedure.
    Proc {
        id: ProcId,
        own: Sums,
        total: Sums,
    },
    /// A context of the procedure.
    Of {
        node: PdId,
        own: Sums,
        total: Sums,
    },
    /// A call site of the procedure.
    Site {
        id: SiteId,
        own: Sums,
        total: Sums,
    },
    /// A module, with how many procedures it has.
    Module {
        id: u32,
        procs: u32,
        own: Sums,
        total: Sums,
    },
    /// The whole of a measure, of which shares are shares.
    Whole {
        by: Measure,
        whole: u64,
    },
    Table(Table),
}

/// A page: what it is of, and its rows from top to bottom.
#[derive(Drop)]
pub struct Page {
    title: Title,
    rows: Vec<Row>,
}

impl Model for Page {
    ghost use Rattle.md_query.specs.Page.{PageRows};

    ghost Value = { PageRows };

    ghost view = { λ p. record { title = p.title; rows = p.rows.items } };
}

impl Page {
    ghost use Rattle.std.specs.Prelude.{◌≡◌};

    /// A page of these rows. Takes no memory.
    pub fn from_parts(title: Title, rows: Vec<Row>) -> Page
        ensures { result ≡ record { title = title; rows = rows.items } }
    {
        Page { title, rows }
    }

    /// Takes the page apart. Takes no memory.
    pub fn into_parts(self) -> (Title, Vec<Row>)
        ensures title { result.0 ≡ self.title }
        ensures rows { result.1.items ≡ self.rows }
    {
        let Page { title, rows } = self;
        (title, rows)
    }

    /// What the page is of.
    pub fn title(&self) -> &Title
        ensures { result.now ≡ self.now.title }
    {
        &self.title
    }

    /// The rows, from top to bottom.
    pub fn rows(&self) -> &[Row]
        ensures { result.now ≡ self.now.rows }
    {
        self.rows.as_slice()
    }
}
