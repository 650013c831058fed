// What a run came to, as the machine and the plain program tell it.
ghost use Rattle.std.specs.Prelude.{◌≡◌, ◌≤◌, length};
ghost use Rattle.md_hlds.specs.Hlds.{hlds_of};
ghost use Rattle.law_events.specs.Table.{site_table};
ghost use Rattle.md_trace.specs.PortHistory.{IsSiteTable};

use super::checked;
use super::order::Order;
use bumpalo::Bump;
use law_events::programs_have_tables;
use law_spelled::accepted_texts_have_mains;
use md_base::{Counts, Measure, ProcId};
use md_det::Checked;
use md_machine::{End, Ran, interpret};
use md_plain::{Item, run};
use md_trace::{Counter, Silent};
use std::alloc::Global;
use std::test::Fail;

/// What a run wrote and threw, how it ended, its counts over all procedures, and the order of its ports.
#[derive(Debug, PartialEq, Eq, Drop)]
pub struct Came {
    pub output: Vec<u8>,
    pub end: End,
    pub error: Vec<u8>,
    pub counts: Counts,
    pub order: Order,
}

/// The call sites of a checked program are a site table.
fn has_site_table(checked: &Checked)
    ensures { IsSiteTable (site_table (hlds_of checked.now)) }
{
    programs_have_tables();
    accepted_texts_have_mains();
    let _ = checked.program();
}

/// The run of a program, for a sink that keeps nothing.
fn silent(alloc: Global, checked: &Checked, budget: u32) -> Result<Ran, Fail> {
    has_site_table(checked);
    let ran = interpret(alloc, checked, budget, &mut Silent)?;
    Ok(ran)
}

/// The run of the program of a text, for a sink that keeps nothing.
pub fn silent_run(alloc: Global, text: &str, budget: u32) -> Result<Ran, Fail> {
    let checked = checked(alloc, text.as_bytes())?;
    silent(alloc, &checked, budget)
}

/// The run of the program of a text, and its counts over all procedures.
pub fn counted_run(alloc: Global, text: &str, budget: u32) -> Result<(Ran, Counts), Fail> {
    let checked = checked(alloc, text.as_bytes())?;
    counted(alloc, &checked, budget)
}

/// The run of a program, and its counts over all procedures.
fn counted(alloc: Global, checked: &Checked, budget: u32) -> Result<(Ran, Counts), Fail> {
    let procs = procedures(checked);
    let mut counter = Counter::new(alloc, procs)?;
    has_site_table(checked);
    let ran = interpret(alloc, checked, budget, &mut counter)?;
    Ok((ran, sums(&counter, procs)))
}

/// How many procedures a program has.
fn procedures(checked: &Checked) -> u32
    ensures { result ≡ length (hlds_of checked.now).procedures }
{
    checked.program().preds.as_slice().len() as u32
}

/// The counts of so many procedures together.
fn sums(counter: &Counter, procs: u32) -> Counts
    requires { procs ≤ length counter.now.own }
{
    let mut sums = Counts::default();
    for number in 0..procs {
        add_all(&mut sums, counter.own(ProcId::new(number)));
    }
    sums
}

/// Adds all counts.
fn add_all(sums: &mut Counts, more: Counts) {
    for measure in [
        Measure::Calls,
        Measure::Exits,
        Measure::Fails,
        Measure::Redos,
        Measure::Allocs,
        Measure::Words,
        Measure::Excps,
    ] {
        sums.add(measure, more.of(measure));
    }
}

/// The run of a program, and the order of its ports.
pub fn ordered(alloc: Global, checked: &Checked, budget: u32) -> Result<Order, Fail> {
    let mut order = Order::new();
    has_site_table(checked);
    interpret(alloc, checked, budget, &mut order)?;
    Ok(order)
}

/// What a run of the machine came to, once with each sink.
pub fn by_machine(alloc: Global, checked: &Checked, budget: u32) -> Result<Came, Fail> {
    let (ran, counts) = counted(alloc, checked, budget)?;
    let order = ordered(alloc, checked, budget)?;
    Ok(Came {
        output: ran.output,
        end: ran.end,
        error: ran.error,
        counts,
        order,
    })
}

/// What a run of the plain program came to, and its weight.
pub fn by_plain(alloc: Global, checked: &Checked, budget: u32) -> Result<(Came, u64), Fail> {
    let bump = Bump::new(alloc);
    let items = run(&bump, checked.program(), budget)?;
    let mut came = Came {
        output: Vec::new(alloc),
        end: End::OutOfSteps,
        error: Vec::new(alloc),
        counts: Counts::default(),
        order: Order::new(),
    };
    let mut weight = 0u64;
    for item in items {
        weight = weight.saturating_add(weight_of(item));
        take(&mut came, item)?;
    }
    Ok((came, weight))
}

/// The weight of a turn; nothing else has any.
fn weight_of(item: &Item) -> u64 {
    match item {
        Item::Turn(_, _, weight) => *weight,
        _ => 0,
    }
}

/// Takes one item of a run.
fn take(came: &mut Came, item: &Item) -> Result<(), Fail> {
    match item {
        Item::Out(bytes) => came.output.extend_from_slice(bytes)?,
        Item::Throw(bytes) => {
            came.end = End::Thrown;
            came.error.extend_from_slice(bytes)?;
        }
        Item::Answer(_) => came.end = End::Finished,
        _ => take_event(&mut came.counts, &mut came.order, item),
    }
    Ok(())
}

/// Takes a port or an allocation of a run.
fn take_event(counts: &mut Counts, order: &mut Order, item: &Item) {
    match item {
        Item::Call(act, _, site, callee) => {
            counts.add(Measure::Calls, 1);
            order.call(*act, *site, *callee);
        }
        Item::Exit(act) => {
            counts.add(Measure::Exits, 1);
            order.port(1, *act);
        }
        Item::Redo(act) => {
            counts.add(Measure::Redos, 1);
            order.port(2, *act);
        }
        Item::Fail(act) => {
            counts.add(Measure::Fails, 1);
            order.port(3, *act);
        }
        Item::Excp(act) => {
            counts.add(Measure::Excps, 1);
            order.port(4, *act);
        }
        Item::Alloc(_, words) => {
            counts.add(Measure::Allocs, 1);
            counts.add(Measure::Words, (*words).min(4_294_967_295) as u32);
            order.port(5, *words);
        }
        _ => {}
    }
}
