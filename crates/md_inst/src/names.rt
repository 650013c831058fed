// What names in goals stand for: functors and predicates.
ghost use Rattle.std.specs.Prelude.{◌≡◌};
ghost use Rattle.md_hlds.specs.Hlds.{hlds_of};
ghost use Rattle.md_inst.specs.Named as spec;
ghost use Rattle.md_names.specs.Named as lookup;
ghost use Rattle.md_inst.specs.Found.{functor_found, predicate_found};

use md_base::Name;
use md_hlds::{Pred, PredName, Ty};
use md_names::Names;

/// A functor: the type that it makes, and the types of its arguments.
#[derive(Clone, Copy)]
pub struct Found<'a> {
    pub makes: &'a Name,
    pub args: &'a [Ty],
}

/// The functor that a term of this name and number of arguments is, if it is one.
pub fn functor_called<'a>(names: &Names<'a>, name: &PredName, arity: usize) -> Option<Found<'a>>
    ensures { functor_found result ≡ spec.functor_called (hlds_of names.now) name.now arity }
{
    match name.qualifier {
        None => functor_of(names, &name.name, arity),
        Some(_) => None,
    }
}

fn functor_of<'a>(names: &Names<'a>, name: &Name, arity: usize) -> Option<Found<'a>>
    ensures { functor_found result ≡ spec.functor_of (lookup.functor_found name.now arity (hlds_of names.now).types) }
{
    match names.functor(name, arity) {
        None => None,
        Some((family, functor)) => Some(Found {
            makes: &family.name,
            args: functor.args.as_slice(),
        }),
    }
}

/// Whether a functor has that name, whatever its arity.
pub fn is_name_of_functor(names: &Names<'_>, name: &PredName) -> bool
    ensures { result ≡ spec.is_name_of_functor (hlds_of names.now) name.now }
{
    match name.qualifier {
        None => names.has_functor_name(&name.name),
        Some(_) => false,
    }
}

/// The predicate of that name, if there is one.
pub fn predicate_called<'a>(names: &Names<'a>, name: &PredName) -> Option<&'a Pred>
    ensures { predicate_found result ≡ spec.predicate_called (hlds_of names.now) name.now }
{
    match names.predicate(name) {
        None => None,
        Some((_, pred)) => Some(pred),
    }
}
