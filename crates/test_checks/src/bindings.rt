// A goal at a time: what it asks of its variables, and what it makes of them.
use crate::fault::Fault;
use crate::text::goals_of;
use crate::words::count_of;
use md_hlds::{Pred, Program};
use md_inst::{Inst, ModeFault, Spot, atomic, inst_at, inst_in};
use md_names::Names;
use std::alloc::Global;

/// Adds what the goals of a program's clauses come to, clause by clause.
pub fn bindings(alloc: Global, program: &Program, found: &mut String) -> Result<(), Fault> {
    let names = Names::new(alloc, program)?;
    clauses(alloc, &names, program.preds.as_slice(), found)
}

/// The same of the clauses of these predicates.
fn clauses<'a>(
    alloc: Global,
    names: &Names<'a>,
    preds: &'a [Pred],
    found: &mut String,
) -> Result<(), Fault> {
    for pred in preds {
        clause(alloc, names, pred, found)?;
    }
    Ok(())
}

/// Adds what each goal of a clause comes to, where none of its variables is bound at first.
fn clause<'a>(
    alloc: Global,
    names: &Names<'a>,
    pred: &'a Pred,
    found: &mut String,
) -> Result<(), Fault> {
    let mut insts = free(alloc, pred.vars.len())?;
    for goal in goals_of(&pred.body) {
        let at = Spot {
            line: goal.line,
            strict: false,
        };
        let answer = atomic(names, &mut insts, at, &goal.kind);
        tell(answer, insts.as_slice(), found)?;
    }
    Ok(())
}

/// So many variables, none of which is bound.
fn free<'a>(alloc: Global, count: usize) -> Result<Vec<Inst<'a>>, Fault> {
    let mut insts = Vec::new(alloc);
    for _place in 0..count {
        insts.push(Inst::Free)?;
    }
    Ok(insts)
}

/// Adds an answer, and whether each variable is bound after it, by its place as a number of 32 bits and as any number.
fn tell(answer: Result<(), ModeFault>, insts: &[Inst], found: &mut String) -> Result<(), Fault> {
    write!(found, "{answer:?}, bound")?;
    for place in 0..count_of(insts.len())? {
        let at = inst_at(insts, place).is_bound();
        let within = inst_in(insts, place as usize).is_bound();
        write!(found, " {at}/{within}")?;
    }
    Ok(writeln!(found)?)
}
