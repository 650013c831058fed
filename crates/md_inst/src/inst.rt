// What is known of the variables of a clause.
ghost use Rattle.std.specs.Prelude.{◌≡◌};
ghost use Rattle.md_inst.specs.Instantiation.{known_at, put, hand_on, handed_on, is_bound, is_newly_bound};
ghost use Rattle.md_inst.specs.Common.{disagree, common, is_alike};
ghost use Rattle.md_inst.specs.Kinds.{instantiation_of, inst_map_of};

use crate::kind::Kind;

/// What is known of a variable: it isn't bound, or it is bound with a type, and an io state may have been used.
#[derive(Clone, Copy)]
pub enum Inst<'a> {
    Free,
    Bound(Kind<'a>, bool),
}

impl<'a> Inst<'a> {
    pub fn is_bound(self) -> bool
        ensures { result ≡ is_bound (instantiation_of self.entry) }
    {
        match self {
            Inst::Free => false,
            Inst::Bound(..) => true,
        }
    }

    /// Whether the variable isn't bound before and is bound after.
    pub fn is_newly_bound(before: Inst<'a>, after: Inst<'a>) -> bool
        ensures { result ≡ is_newly_bound (instantiation_of before.entry) (instantiation_of after.entry) }
    {
        !before.is_bound() && after.is_bound()
    }

    /// Whether one arm binds the variable and another doesn't.
    pub fn disagree(self, other: Inst<'a>) -> bool
        ensures { result ≡ disagree (instantiation_of self.entry) (instantiation_of other.entry) }
    {
        match self {
            Inst::Free => other.is_bound(),
            Inst::Bound(..) => !other.is_bound(),
        }
    }

    /// What two arms have in common at a variable: an io state is used where either uses it.
    pub fn common(self, other: Inst<'a>) -> Inst<'a>
        ensures { instantiation_of result ≡ common (instantiation_of self.entry) (instantiation_of other.entry) }
    {
        match self {
            Inst::Free => Inst::Free,
            Inst::Bound(kind, used) => match other {
                Inst::Free => Inst::Free,
                Inst::Bound(_, spent) => Inst::Bound(kind, used || spent),
            },
        }
    }

    /// Whether two arms that both bind the variable bind it with one type.
    pub fn is_alike(self, other: Inst<'a>) -> bool
        ensures { result ≡ is_alike (instantiation_of self.entry) (instantiation_of other.entry) }
    {
        match self {
            Inst::Free => true,
            Inst::Bound(kind, _) => match other {
                Inst::Free => true,
                Inst::Bound(other, _) => kind.is_same(other),
            },
        }
    }

    /// The inst of a variable that is handed on.
    fn handed_on(self) -> Inst<'a>
        ensures { instantiation_of result ≡ handed_on (instantiation_of self.entry) }
    {
        match self {
            Inst::Free => Inst::Free,
            Inst::Bound(kind, _) => Inst::Bound(kind, kind.is_world()),
        }
    }
}

/// What is known of the variable at a place; one past the end isn't bound.
pub fn inst_at<'a>(insts: &[Inst<'a>], place: u32) -> Inst<'a>
    ensures { instantiation_of result ≡ known_at (inst_map_of insts.now) place }
{
    inst_in(insts, place as usize)
}

/// The same for a place that may be any number.
pub fn inst_in<'a>(insts: &[Inst<'a>], place: usize) -> Inst<'a>
    ensures { instantiation_of result ≡ known_at (inst_map_of insts.now) place }
{
    if place < insts.len() {
        insts[place]
    } else {
        Inst::Free
    }
}

/// Sets what is known of the variable at a place; past the end it does nothing.
pub fn set_inst<'a>(insts: &mut Vec<Inst<'a>>, place: u32, inst: Inst<'a>)
    ensures { inst_map_of insts.new.items ≡ put (inst_map_of insts.old.items) place (instantiation_of inst.entry) }
{
    let place = place as usize;
    if place < insts.len() {
        insts[place] = inst;
    }
}

/// Hands a variable on.
pub fn hand_on(insts: &mut Vec<Inst<'_>>, place: u32)
    ensures { inst_map_of insts.new.items ≡ hand_on place (inst_map_of insts.old.items) }
{
    let inst = inst_at(insts, place);
    set_inst(insts, place, inst.handed_on());
}
