// Programs: their types and their predicates.
ghost use Rattle.std.specs.Prelude.{◌<◌, ◌^◌, length};

use crate::sites::find_site;
use crate::{Det, Goal, Mode, Ty, Variables};
use md_base::{Name, ProcId, SiteId};

/// A whole program: one file.
#[derive(Drop)]
pub struct Program {
    pub module: Name,
    pub module_line: u32,
    pub types: Vec<TypeDef>,
    /// The predicates in text order; a predicate's place is its procedure's number.
    pub preds: Vec<Pred>,
    /// So few that each has a number.
    pub ghost numbered: { length preds.items < 2 ^ 32 },
}

/// `:- type NAME ---> FUNCTOR ; ..`.
#[derive(Drop)]
pub struct TypeDef {
    pub name: Name,
    pub line: u32,
    pub functors: Vec<Functor>,
}

/// A functor with the types of its arguments; with none it is a constant.
#[derive(Drop)]
pub struct Functor {
    pub name: Name,
    pub args: Vec<Ty>,
}

/// A predicate: its declaration and its one clause.
#[derive(Drop)]
pub struct Pred {
    pub qualifier: Option<Name>,
    pub name: Name,
    /// The line of the declaration.
    pub line: u32,
    /// The line of the clause's first token.
    pub clause_line: u32,
    pub args: Vec<(Ty, Mode)>,
    pub det: Det,
    /// The names of the clause's variables, in order of first occurrence.
    pub vars: Vec<Name>,
    /// The variables of the clause's head.
    pub head: Variables,
    pub body: Goal,
}

impl Program {
    ghost use Rattle.std.specs.Prelude.{◌≡◌, ◌≤◌, slice_get, Some, MatchOption};
    ghost use Rattle.md_hlds.specs.Hlds.{hlds_of, procedure_of, sites_of};

    /// The predicate of this procedure number, or `None` exactly where there is none.
    pub fn pred(&self, id: ProcId) -> Option<&Pred>
        ensures { MatchOption result (length (hlds_of self.now).procedures ≤ id)
            (λ pred. slice_get (hlds_of self.now).procedures id ≡ Some (procedure_of pred.now)) }
    {
        self.preds.get(id.number() as usize)
    }

    /// The procedure in whose clause this call site stands, and the site's line, or `None` exactly where there is no
    /// such site. Sites are counted in text order over the whole file. Walks the program up to the site.
    pub fn site(&self, id: SiteId) -> Option<(ProcId, u32)>
        ensures { MatchOption result (length (sites_of (hlds_of self.now)) ≤ id)
            (λ found. slice_get (sites_of (hlds_of self.now)) id ≡ Some (found.0, found.1)) }
    {
        let mut before = id.number();
        for (owner, pred) in self.preds.iter().enumerate() {
            if let Some(line) = find_site(&pred.body, &mut before) {
                return Some((ProcId::new(owner as u32), line));
            }
        }
        None
    }
}
