// The run of a program that the checks accept.
ghost use Rattle.std.specs.Prelude.{[], IfOk, OnOk, OnErr};
ghost use Rattle.md_hlds.specs.Hlds.{hlds_of};
ghost use Rattle.md_hlds.specs.Run.{run};
ghost use Rattle.law_events.specs.History.{history};
ghost use Rattle.law_events.specs.Table.{site_table};
ghost use Rattle.md_machine.specs.Ran.{IsRunOf, StandsForFront};

use crate::ran::Ran;
use crate::run::perform;
use law_spelled::accepted_texts_are_within_bounds;
use md_base::NoMemory;
use md_code::compile;
use md_det::Checked;
use md_ports::{Instrumented, instrument};
use md_trace::PortSink;
use std::alloc::Global;

/// Runs code with its ports within a budget of steps (a turn costs its weight), and hands each port and each allocation to the sink. The
/// output and the end are those of the definition of the run, and the sink, which stood for the empty history over the program's call
/// sites, stands then for that of the run's events; after want of memory, for that of a front of them. Time grows with the weight of the
/// run and its ports; memory grows with the depth of calls, the open choices and the values built, and not with turns or events.
///
/// # Errors
///
/// `NoMemory` where memory was refused or the sink wants it, and where the parts of all cells, the frames or the choices are more than 32 bits count.
pub fn execute<S: PortSink>(
    alloc: Global,
    code: &Instrumented<'_>,
    budget: u32,
    sink: &mut S,
) -> Result<Ran, NoMemory>
    requires begins { S.stands_for sink.old (site_table (hlds_of code.now)) [] }
    ensures run { IfOk result (λ ran. IsRunOf (hlds_of code.now) budget ran) }
    ensures whole { OnOk result (S.stands_for sink.new (site_table (hlds_of code.now)) (history (run (hlds_of code.now) budget))) }
    ensures front { OnErr result (StandsForFront (hlds_of code.now) budget (S.stands_for sink.new (site_table (hlds_of code.now)))) }
    ensures alike { S.alike sink.old sink.new }
{
    accepted_texts_are_within_bounds();
    perform(alloc, code.code(), budget, sink)
}

/// Compiles a program that the checks accept, and runs its code as `execute` does. `NoMemory` also comes where `compile` answers it.
pub fn interpret<S: PortSink>(
    alloc: Global,
    checked: &Checked,
    budget: u32,
    sink: &mut S,
) -> Result<Ran, NoMemory>
    requires begins { S.stands_for sink.old (site_table (hlds_of checked.now)) [] }
    ensures run { IfOk result (λ ran. IsRunOf (hlds_of checked.now) budget ran) }
    ensures whole { OnOk result (S.stands_for sink.new (site_table (hlds_of checked.now)) (history (run (hlds_of checked.now) budget))) }
    ensures front { OnErr result (StandsForFront (hlds_of checked.now) budget (S.stands_for sink.new (site_table (hlds_of checked.now)))) }
    ensures alike { S.alike sink.old sink.new }
{
    let code = compile(alloc, checked)?;
    let code = instrument(alloc, checked, code)?;
    execute(alloc, &code, budget, sink)
}
