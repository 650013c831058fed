// What is known of all goals and procedures of a program.
ghost use Rattle.std.specs.Prelude.{◌≡◌, IfOk};
ghost use Rattle.md_hlds.specs.Hlds.{Hlds, hlds_of, clause_goals, procedure_of};
ghost use Rattle.md_hlds.specs.HldsGoal.{site_count};
ghost use Rattle.md_hlds.specs.Trace.{call_weight};
ghost use Rattle.md_code.specs.Facts.{facts_from, callees_from, callee};

use crate::callee::Callee;
use crate::fact::Fact;
use crate::number::{plus, small};
use crate::source::Source;
use crate::survey::add_facts;
use md_base::NoMemory;
use md_hlds::Pred;
use std::alloc::Global;

/// What is known of each goal, and of each procedure as one that is called.
pub fn survey(alloc: Global, source: &Source) -> Result<(Vec<Fact>, Vec<Callee>), NoMemory>
    ensures facts { IfOk result (λ found. found.0.items ≡ facts_from (hlds_of source.now.checked.now) 0 (clause_goals (hlds_of source.now.checked.now).procedures)) }
    ensures callees { IfOk result (λ found. found.1.items ≡ callees_from 0 (hlds_of source.now.checked.now).procedures) }
{
    let mut facts = Vec::new(alloc);
    let mut callees = Vec::new(alloc);
    for pred in source.checked.program().preds.as_slice() {
        let body = small(facts.len())?;
        let fact = add_facts(source, &mut facts, &pred.body)?;
        callees.push(callee_of(pred, fact.sites, body)?)?;
    }
    Ok((facts, callees))
}

/// A predicate whose body has so many call sites, and this number.
fn callee_of(pred: &Pred, sites: u32, body: u32) -> Result<Callee, NoMemory>
    ensures { IfOk result (λ found. sites ≡ site_count (procedure_of pred.now).body → found ≡ callee (call_weight (procedure_of pred.now)) body) }
{
    let weight = plus(1, plus(small(pred.vars.len())?, sites)?)?;
    Ok(Callee { weight, body })
}
