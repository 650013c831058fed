// Types as the checks see them: those of the program, and those of closures that it makes.
ghost use Rattle.std.specs.Prelude.{◌≡◌};
ghost use Rattle.md_hlds.specs.Hlds.{number, text, named, hlds_type_of, hlds_types_of, args_of, closure, gathered_types};
ghost use Rattle.md_inst.specs.HldsTypes.{same_sort, same_plain, is_world, is_closure};
ghost use Rattle.md_inst.specs.Simple.{left_open};
ghost use Rattle.md_inst.specs.Kinds.{kind_sort};

use crate::closure::{
    are_modes, are_types, have_same_modes, have_same_types, modes_are, same_det, same_modes,
    same_types, types_are,
};
use md_base::Name;
use md_hlds::{Det, HoTy, Mode, Ty};

/// A type.
#[derive(Clone, Copy)]
pub enum Kind<'a> {
    Number,
    Text,
    World,
    Named(&'a Name),
    Closure(&'a HoTy),
    /// A closure of a predicate that is declared so, with these arguments left.
    Open(&'a [(Ty, Mode)], Det),
}

impl<'a> Kind<'a> {
    /// The type that a declaration names.
    pub fn new(ty: &'a Ty) -> Kind<'a>
        ensures { kind_sort result ≡ hlds_type_of ty.now }
    {
        match ty {
            Ty::Int => Kind::Number,
            Ty::Str => Kind::Text,
            Ty::Io => Kind::World,
            Ty::User(name) => Kind::Named(name),
            Ty::Ho(closure) => Kind::Closure(closure),
        }
    }

    /// Whether it is the type of the io state.
    pub fn is_world(self) -> bool
        ensures { result ≡ is_world (kind_sort self.entry) }
    {
        match self {
            Kind::World => true,
            _ => false,
        }
    }

    /// Whether it is a higher-order type.
    pub fn is_closure(self) -> bool
        ensures { result ≡ is_closure (kind_sort self.entry) }
    {
        match self {
            Kind::Closure(_) | Kind::Open(..) => true,
            _ => false,
        }
    }

    /// Whether two types are the same.
    pub fn is_same(self, other: Kind<'a>) -> bool
        ensures { result ≡ same_sort (kind_sort self.entry) (kind_sort other.entry) }
    {
        match self {
            Kind::Number => other.is_number(),
            Kind::Text => other.is_text(),
            Kind::World => other.is_world(),
            Kind::Named(name) => other.is_named(name),
            Kind::Closure(closure) => other.is_closure_of(closure),
            Kind::Open(args, det) => other.is_open(args, det),
        }
    }

    /// Whether two types are the same and of no higher order.
    pub fn is_same_plain(self, other: Kind<'_>) -> bool
        ensures { result ≡ same_plain (kind_sort self.entry) (kind_sort other.entry) }
    {
        match self {
            Kind::Number => other.is_number(),
            Kind::Text => other.is_text(),
            Kind::World => other.is_world(),
            Kind::Named(name) => other.is_named(name),
            Kind::Closure(_) | Kind::Open(..) => false,
        }
    }

    fn is_number(self) -> bool
        ensures { result ≡ same_sort number (kind_sort self.entry) }
    {
        match self {
            Kind::Number => true,
            _ => false,
        }
    }

    fn is_text(self) -> bool
        ensures { result ≡ same_sort text (kind_sort self.entry) }
    {
        match self {
            Kind::Text => true,
            _ => false,
        }
    }

    fn is_named(self, name: &Name) -> bool
        ensures { result ≡ same_sort (named name.now) (kind_sort self.entry) }
    {
        match self {
            Kind::Named(other) => name == other,
            _ => false,
        }
    }

    fn is_closure_of(self, ho: &HoTy) -> bool
        ensures { result ≡ same_sort (closure (gathered_types (hlds_types_of ho.now.types.items)) ho.now.modes.items ho.now.det) (kind_sort self.entry) }
    {
        match self {
            Kind::Closure(other) => {
                same_types(&ho.types, &other.types)
                    && same_modes(&ho.modes, &other.modes)
                    && same_det(ho.det, other.det)
            }
            Kind::Open(args, det) => {
                types_are(&ho.types, args) && modes_are(&ho.modes, args) && same_det(ho.det, det)
            }
            _ => false,
        }
    }

    fn is_open(self, args: &[(Ty, Mode)], det: Det) -> bool
        ensures { result ≡ same_sort (left_open (args_of args.now) det) (kind_sort self.entry) }
    {
        match self {
            Kind::Closure(other) => {
                are_types(args, &other.types)
                    && are_modes(args, &other.modes)
                    && same_det(det, other.det)
            }
            Kind::Open(others, other) => {
                have_same_types(args, others)
                    && have_same_modes(args, others)
                    && same_det(det, other)
            }
            _ => false,
        }
    }
}
