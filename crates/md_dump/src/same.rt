// Whether two programs have the same tables.
ghost use Rattle.std.specs.Prelude.{◌≡◌, ◌↔◌, IsTrue};

use md_base::{Name, ProcId};
use md_static::{Proc, Site, SiteKind, Statics};

/// Whether the modules, procedures and call sites are the same.
pub(crate) fn same_statics(one: &Statics, other: &Statics) -> bool
    ensures { IsTrue result ↔ (one.now ≡ other.now) }
{
    all_same(one.modules(), other.modules())
        && all_same(one.procs(), other.procs())
        && all_same(one.sites(), other.sites())
}

/// A row of the tables.
trait Row {
    /// Whether both are the same.
    fn same(&self, other: &Self) -> bool
        ensures { IsTrue result ↔ (self.now ≡ other.now) };
}

impl Row for Name {
    fn same(&self, other: &Name) -> bool {
        self.as_bytes() == other.as_bytes()
    }
}

impl Row for Proc {
    fn same(&self, other: &Proc) -> bool {
        self.module == other.module && self.name.same(&other.name) && self.arity == other.arity
    }
}

impl Row for Site {
    fn same(&self, other: &Site) -> bool {
        self.owner.number() == other.owner.number()
            && self.line == other.line
            && same_kind(self.kind, other.kind)
    }
}

fn same_kind(one: SiteKind, other: SiteKind) -> bool
    ensures { IsTrue result ↔ (other ≡ one) }
{
    match one {
        SiteKind::Plain(callee) => calls_only(other, callee),
        SiteKind::HigherOrder => calls_any(other),
    }
}

fn calls_only(kind: SiteKind, callee: ProcId) -> bool
    ensures { IsTrue result ↔ (kind ≡ SiteKind.Plain callee) }
{
    match kind {
        SiteKind::Plain(only) => only.number() == callee.number(),
        SiteKind::HigherOrder => false,
    }
}

fn calls_any(kind: SiteKind) -> bool
    ensures { IsTrue result ↔ (kind ≡ SiteKind.HigherOrder) }
{
    match kind {
        SiteKind::Plain(_) => false,
        SiteKind::HigherOrder => true,
    }
}

/// Whether both lists have the same rows in the same order.
fn all_same<T: Row>(one: &[T], other: &[T]) -> bool
    ensures { IsTrue result ↔ (one.now ≡ other.now) }
{
    let mut rest = other;
    for row in one {
        let [first, after @ ..] = rest else {
            return false;
        };
        if !row.same(first) {
            return false;
        }
        rest = after;
    }
    rest.is_empty()
}
