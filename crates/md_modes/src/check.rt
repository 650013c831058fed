// The whole program.
ghost use Rattle.std.specs.Prelude.{◌≡◌, ◌≢◌, ◌^◌, None, Some, ◌++◌, IfOk, OnOk, MatchResult};
ghost use Rattle.md_hlds.specs.Hlds.{hlds_of, procedure_of, procedures_of};
ghost use Rattle.md_inst.specs.declared.fault.ModeFault.TheVariants as faults;
ghost use Rattle.md_inst.specs.Kinds.{inst_map_of, Finds};
ghost use Rattle.md_reader.specs.Arguments.{HaveFewArguments};
ghost use Rattle.md_reader.specs.Grammar.{IsOfText};
ghost use Rattle.md_modes.specs.Branches.{after};
ghost use Rattle.md_modes.specs.Modes as spec;
ghost use Rattle.md_modes.specs.Modes.{mode_fault};
ghost use Rattle.md_modes.specs.Notes.{program_notes, notes_from, clause_notes};
ghost use Rattle.md_modes.specs.Classes.{notes_told};
ghost use Rattle.md_modes.specs.Joins.{Checks};

use crate::class::Note;
use crate::clause::Clause;
use crate::declarations::{check_predicates, check_types};
use crate::ends::{check_exits, entry};
use crate::main_predicate::has_main;
use crate::moded::Moded;
use crate::tally::counts_of_clause;
use md_hlds::{Pred, Program};
use md_inst::{Inst, ModeFault};
use md_names::Names;
use md_reader::{a_text_has_more_bytes_than_arguments, a_text_has_more_bytes_than_goals};
use std::alloc::Global;

/// Checks the modes of a program that the reader gave, and gives it back with what was found at each goal. A refusal names
/// the program's first fault with its line, and gives the program up. Takes time near linear in the program, times the
/// depth of its goals.
#[tactic(auto, unfolding(crate::specs::Modes::mode_fault))]
pub fn check_modes(alloc: Global, program: Program) -> Result<Moded, ModeFault>
    requires { IsOfText (hlds_of program) }
    ensures answer { MatchResult result (λ moded. moded ≡ program) (λ fault. fault ≢ faults.NoMemory → mode_fault (hlds_of program) ≡ Some fault) }
    ensures accepted { IfOk result (λ moded. mode_fault (hlds_of moded) ≡ None) }
{
    let mut notes = Vec::new(alloc);
    a_text_has_more_bytes_than_arguments();
    check_program(alloc, &program, &mut notes)?;
    a_text_has_more_bytes_than_goals();
    Ok(Moded::new(program, notes))
}

/// Checks a program, and notes what is found at its goals.
fn check_program(alloc: Global, program: &Program, notes: &mut Vec<Note>) -> Result<(), ModeFault>
    requires { HaveFewArguments (2 ^ 32) (hlds_of program.now).types }
    ensures checked { Checks result (spec.checked (hlds_of program.now)) }
    ensures notes { OnOk result (notes_told notes.new.items ≡ notes_told notes.old.items ++ program_notes (hlds_of program.now)) }
{
    let names = Names::new(alloc, program)?;
    let end = check_named(alloc, &names, notes);
    drop(names);
    end
}

/// Checks the program that has these names.
#[tactic(auto, unfolding(crate::specs::Notes::program_notes))]
fn check_named(alloc: Global, names: &Names<'_>, notes: &mut Vec<Note>) -> Result<(), ModeFault>
    requires { HaveFewArguments (2 ^ 32) (hlds_of names.now).types }
    ensures checked { Checks result (spec.checked (hlds_of names.now)) }
    ensures notes { OnOk result (notes_told notes.new.items ≡ notes_told notes.old.items ++ program_notes (hlds_of names.now)) }
{
    let program = names.program();
    check_types(names, program.types.as_slice())?;
    check_predicates(names, program.preds.as_slice())?;
    check_clauses(alloc, names, program.preds.as_slice(), notes)?;
    if !has_main(program.preds.as_slice()) {
        return Err(ModeFault::NoMain(program.module_line));
    }
    Ok(())
}

/// Checks these clauses of a program, and notes what is found at their goals.
fn check_clauses<'a>(
    alloc: Global,
    names: &Names<'a>,
    preds: &'a [Pred],
    notes: &mut Vec<Note>,
) -> Result<(), ModeFault>
    requires { HaveFewArguments (2 ^ 32) (hlds_of names.now).types }
    ensures checked { Checks result (spec.clauses (hlds_of names.now) (procedures_of preds.now)) }
    ensures notes { OnOk result (notes_told notes.new.items ≡ notes_told notes.old.items ++ notes_from (hlds_of names.now) (procedures_of preds.now)) }
{
    for pred in preds {
        check_clause(alloc, names, pred, notes)?;
    }
    Ok(())
}

fn check_clause<'a>(
    alloc: Global,
    names: &Names<'a>,
    pred: &'a Pred,
    notes: &mut Vec<Note>,
) -> Result<(), ModeFault>
    requires { HaveFewArguments (2 ^ 32) (hlds_of names.now).types }
    ensures checked { Checks result (spec.clause (hlds_of names.now) (procedure_of pred.now)) }
    ensures notes { OnOk result (notes_told notes.new.items ≡ notes_told notes.old.items ++ clause_notes (hlds_of names.now) (procedure_of pred.now)) }
{
    let clause = Clause {
        names,
        pred,
        counts: counts_of_clause(alloc, pred)?,
    };
    let end = check_body(alloc, &clause, notes);
    drop(clause);
    end
}

/// Checks the body of a clause from its inputs on, and then its outputs.
fn check_body<'a>(
    alloc: Global,
    clause: &Clause<'a, '_>,
    notes: &mut Vec<Note>,
) -> Result<(), ModeFault>
    ensures checked { Checks result (spec.clause (hlds_of clause.now.names.now) (procedure_of clause.now.pred.now)) }
    ensures notes { OnOk result (notes_told notes.new.items ≡ notes_told notes.old.items ++ clause_notes (hlds_of clause.now.names.now) (procedure_of clause.now.pred.now)) }
{
    let pred = clause.pred;
    let mut insts = entry(alloc, pred)?;
    let reach = clause.check(alloc, &mut insts, false, &pred.body, notes)?;
    let end = check_end(&insts, pred, reach);
    drop(insts);
    end
}

/// Checks the outputs at the end of a clause, if that is reachable.
fn check_end(insts: &[Inst<'_>], pred: &Pred, reach: bool) -> Result<(), ModeFault>
    ensures { Finds result (spec.end (procedure_of pred.now) (after (inst_map_of insts.now) reach)) }
{
    if !reach {
        return Ok(());
    }
    check_exits(
        insts,
        pred.clause_line,
        pred.args.as_slice(),
        pred.head.as_slice(),
    )
}
