// A program that the mode checks accept.
ghost use Rattle.std.specs.Prelude.{◌≡◌, ◌<◌, ◌+◌, true, false, is_some, None, Some, slice_get, MatchOption};
ghost use Rattle.md_hlds.specs.Hlds.{hlds_of, goal_at};
ghost use Rattle.md_reader.specs.Grammar.{IsOfText};
ghost use Rattle.md_modes.specs.Modes.{mode_fault};
ghost use Rattle.md_modes.specs.Notes.{program_notes, is_with_role};
ghost use Rattle.md_modes.specs.Classes.{AreFew, notes_told, note_told, role_told, role_at, binds_at, state_at, named_at, noted_size, outside_at, size_at};
ghost use Rattle.md_names.specs.Named.{name_at};

use crate::class::{Class, Note};
use md_hlds::Program;
use md_names::Named;
use std::marker::Model;

/// A program without a fault of the mode checks, with what they found at each goal. Contracts see the program. Goals are
/// numbered from 0 in text order over the file, outer before inner; the parts of an if-then-else are condition, then,
/// else. None of its calls takes memory.
#[derive(Drop)]
pub struct Moded {
    program: Program,
    notes: Vec<Note>,
}

impl Model for Moded {
    ghost use Rattle.std.specs.Prelude.{◌≡◌, None};
    ghost use Rattle.std.specs.Coded.{codes};
    ghost use Rattle.md_hlds.specs.declared.program.Program.{Program};
    ghost use Rattle.md_hlds.specs.contracts.goal.Goal as goal;
    ghost use Rattle.md_hlds.specs.contracts.types.Ty as ty;
    ghost use Rattle.md_hlds.specs.Hlds.{hlds_of};
    ghost use Rattle.md_reader.specs.Grammar.{IsOfText};
    ghost use Rattle.md_modes.specs.Modes.{mode_fault};
    ghost use Rattle.md_modes.specs.Notes.{program_notes};
    ghost use Rattle.md_modes.specs.Classes.{AreFew, notes_told};

    ghost Value = { Program };

    ghost coded = { Prim.hlevel (codes, goal.the_row.coded, ty.the_row.coded) };

    ghost view = { λ moded. moded.program };

    ghost invariant = { λ moded. (mode_fault (hlds_of moded.program) ≡ None)
        × (notes_told moded.notes.items ≡ program_notes (hlds_of moded.program))
        × AreFew (hlds_of moded.program)
        × IsOfText (hlds_of moded.program) };
}

impl Moded {
    /// A program with what was found at its goals.
    pub(crate) fn new(program: Program, notes: Vec<Note>) -> Moded
        requires accepted { mode_fault (hlds_of program) ≡ None }
        requires notes { notes_told notes.items ≡ program_notes (hlds_of program) }
        requires few { AreFew (hlds_of program) }
        requires of_text { IsOfText (hlds_of program) }
        ensures { result ≡ program }
    {
        Moded { program, notes }
    }

    /// The program, which a text spells, and which has no fault of the mode checks, and fewer goals than there are numbers of
    /// 32 bits.
    pub fn program(&self) -> &Program
        ensures program { result.now ≡ self.now }
        ensures accepted { mode_fault (hlds_of self.now) ≡ None }
        ensures few { AreFew (hlds_of self.now) }
        ensures of_text { IsOfText (hlds_of self.now) }
    {
        &self.program
    }

    /// What the unification or the higher-order call of this number does, or `None` exactly where there is no such goal
    /// or it is of another kind.
    pub fn class(&self, goal: u32) -> Option<&Class>
        ensures found { MatchOption result (role_at (program_notes (hlds_of self.now)) goal ≡ None)
            (λ class. role_at (program_notes (hlds_of self.now)) goal ≡ Some (role_told class.now)) }
        ensures kind { MatchOption result (is_with_role (goal_at (hlds_of self.now) goal) ≡ false)
            (λ class. is_with_role (goal_at (hlds_of self.now) goal) ≡ true) }
    {
        match self.note(goal) {
            None => None,
            Some(note) => note.class.as_ref(),
        }
    }

    /// The variables that are bound after the goal of this number and not before it, in rising order; none where the
    /// place after it isn't reachable, or there is no such goal.
    pub fn binds(&self, goal: u32) -> &[u32]
        ensures { result.now ≡ binds_at (program_notes (hlds_of self.now)) goal }
    {
        match self.note(goal) {
            None => &[],
            Some(note) => note.binds.as_slice(),
        }
    }

    /// Whether the goal of this number names an io state: a variable of it is one before or after it, and it is no
    /// conjunction, disjunction or if-then-else.
    pub fn names_io(&self, goal: u32) -> bool
        ensures { result ≡ state_at (program_notes (hlds_of self.now)) goal }
    {
        match self.note(goal) {
            None => false,
            Some(note) => note.names_io,
        }
    }

    /// What the name in the goal of this number stands for: that of the term of a unification, or that of a call, in which
    /// it is a predicate. Nothing, where the goal has no name or there is no such goal.
    pub fn named(&self, goal: u32) -> Named
        ensures { result ≡ name_at (hlds_of self.now) goal }
    {
        match self.note(goal) {
            None => Named::Nothing,
            Some(note) => note.named,
        }
    }

    /// How many goals the goal of this number has, itself among them; none, where there is no such goal. The goal that
    /// comes after it in the text has this number and that one together.
    pub fn size(&self, goal: u32) -> usize
        ensures { result ≡ size_at (hlds_of self.now) goal }
    {
        match self.note(goal) {
            None => 0,
            Some(note) => note.size,
        }
    }

    /// The number that comes after the goal of this number and those within it: that of the next goal in the text, if there
    /// is one. Where there is no such goal, the same number.
    pub fn after(&self, goal: u32) -> u32
        requires { goal < 4294967295 }
        ensures after { result ≡ goal + size_at (hlds_of self.now) goal }
        ensures small { result < 4294967295 }
    {
        match self.note(goal) {
            None => goal,
            Some(note) => goal + note.size as u32,
        }
    }

    /// Whether the goal of this number binds a variable that occurs outside it.
    pub fn binds_outside(&self, goal: u32) -> bool
        ensures { result ≡ outside_at (program_notes (hlds_of self.now)) goal }
    {
        match self.note(goal) {
            None => false,
            Some(note) => note.binds_outside,
        }
    }

    /// What was found at the goal of this number.
    fn note(&self, goal: u32) -> Option<&Note>
        ensures found { MatchOption result (slice_get (program_notes (hlds_of self.now)) goal ≡ None)
            (λ note. slice_get (program_notes (hlds_of self.now)) goal ≡ Some (note_told note.now)) }
        ensures kind { is_some (role_at (program_notes (hlds_of self.now)) goal) ≡ is_with_role (goal_at (hlds_of self.now) goal) }
        ensures named { named_at (program_notes (hlds_of self.now)) goal ≡ name_at (hlds_of self.now) goal }
        ensures size { noted_size (program_notes (hlds_of self.now)) goal ≡ size_at (hlds_of self.now) goal }
        ensures small { goal < 4294967295 → goal + size_at (hlds_of self.now) goal < 4294967295 }
    {
        self.notes.get(goal as usize)
    }
}
