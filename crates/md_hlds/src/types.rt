// Types, modes and determinisms.
ghost use Rattle.std.specs.Prelude.{◌≡◌, Some};
ghost use Rattle.md_hlds.specs.Words.{det_word};

use md_base::Name;
use std::fmt;

/// A determinism category (Mercury Language Reference Manual, "Determinism categories").
#[derive(Clone, Copy, Debug, PartialEq, Eq, Hash)]
pub enum Det {
    Det,
    Semidet,
    Multi,
    Nondet,
    Failure,
}

impl Det {
    /// The word for it in a declaration.
    pub fn word(self) -> &'static str
        ensures { result.now ≡ det_word self }
    {
        match self {
            Det::Det => "det",
            Det::Semidet => "semidet",
            Det::Multi => "multi",
            Det::Nondet => "nondet",
            Det::Failure => "failure",
        }
    }
}

impl fmt::Display for Det {
    ghost output = { λ det. Some (det_word det) };

    fn fmt<W: fmt::Write>(&self, f: &mut fmt::Formatter<W>) -> fmt::Result {
        f.write_str(self.word())
    }
}

/// The mode of an argument (Mercury Language Reference Manual, "Modes"): `di` and `uo` are those of the io state.
#[derive(Clone, Copy, Debug, PartialEq, Eq, Hash)]
pub enum Mode {
    In,
    Out,
    Di,
    Uo,
}

/// The type of an argument or a variable.
#[cycle(types)]
#[derive(Debug, Drop)]
pub enum Ty {
    Int,
    Str,
    Io,
    User(Name),
    Ho(HoTy),
}

/// A higher-order type with its inst, `pred(T1, ..)::in(pred(m1, ..) is det)`. The text may give unequally many
/// types and modes, which the mode checks refuse.
#[cycle(types)]
#[derive(Debug, Drop)]
pub struct HoTy {
    pub types: Vec<Ty>,
    pub modes: Vec<Mode>,
    pub det: Det,
}
