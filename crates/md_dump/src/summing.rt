// The costs of a program's procedures, added up over several of its profiles.
ghost use Rattle.std.specs.Prelude.{◌≡◌, ◌≤◌, ◌<◌, ◌^◌, All, length, IfOk, IfErr, IfNone, IfSome};
ghost use Rattle.md_cost.specs.Climbing.{AreSmall};
ghost use Rattle.md_dump.specs.Sums.{IsFirstOther, AreOfOne, HaveViews, IsSmall, IsProcSum, AreProcSums, IsSumFault};
ghost use Rattle.md_dump.specs.declared.summing.SumFault.TheVariants.{NoMemory as out_of_memory};

use crate::same::same_statics;
use md_base::{NoMemory, ProcId};
use md_cost::{Loaded, Sums};
use md_dynamic::LinkRow;
use std::alloc::{AllocError, AllocFailed, Global};
use std::error::Error;
use std::fmt;

/// What a procedure costs over all runs.
#[derive(Clone, Copy, PartialEq, Eq)]
pub struct ProcSum {
    pub id: ProcId,
    pub own: Sums,
    pub total: Sums,
}

/// Why profiles weren't added up.
#[derive(Clone, Copy, Debug, PartialEq, Eq)]
pub enum SumFault {
    /// The first file, by its place from 0, that is of another program than the first one.
    Differ(u32),
    NoMemory,
}

impl fmt::Display for SumFault {
    fn fmt<W: fmt::Write>(&self, f: &mut fmt::Formatter<W>) -> fmt::Result {
        match self {
            SumFault::Differ(place) => write!(f, "file {place} is of another program"),
            SumFault::NoMemory => write!(f, "want of memory"),
        }
    }
}

impl Error for SumFault {}

impl From<AllocError> for SumFault {
    ghost from_gives = { λ _ fault. fault ≡ out_of_memory };

    fn from(_: AllocError) -> SumFault {
        SumFault::NoMemory
    }
}

impl<T: Drop> From<AllocFailed<T>> for SumFault {
    ghost from_gives = { λ _ fault. fault ≡ out_of_memory };

    fn from(_: AllocFailed<T>) -> SumFault {
        SumFault::NoMemory
    }
}

/// The own counts and totals of each procedure, added up over all files, or the first file that is of another program than
/// the first one. There are 1 to 16 files, each with less than 2 ^ 25 links.
pub fn sum_procs(alloc: Global, files: &[Loaded]) -> Result<Vec<ProcSum>, SumFault>
    requires some { 0 < length files.now }
    requires few { length files.now ≤ 16 }
    requires few_links { All (λ f. length f.profile.links < 2 ^ 25) files.now }
    ensures one { IfOk result (λ _. AreOfOne files.now) }
    ensures sums { IfOk result (λ rows. AreProcSums files.now rows.items) }
    ensures views { IfOk result (λ _. HaveViews files.now) }
    ensures fault { IfErr result (λ fault. IsSumFault files.now fault) }
{
    if let Some(place) = first_other(files) {
        return Err(SumFault::Differ(place));
    }
    are_all_small(files);
    let count = files[0].profile().statics().procs().len();
    let mut rows = Vec::with_capacity(alloc, count)?;
    for id in 0..count {
        rows.push(sum_proc(files, ProcId::new(id as u32)))?;
    }
    Ok(rows)
}

/// The first file that is of another program than the first one.
fn first_other(files: &[Loaded]) -> Option<u32>
    requires some { 0 < length files.now }
    requires few { length files.now ≤ 16 }
    ensures other { IfSome result (λ place. IsFirstOther files.now place) }
    ensures one { IfNone result (AreOfOne files.now) }
{
    let first = files[0].profile().statics();
    for place in 1..files.len() {
        if !same_statics(files[place].profile().statics(), first) {
            return Some(place as u32);
        }
    }
    None
}

/// The sums of one procedure.
fn sum_proc(files: &[Loaded], id: ProcId) -> ProcSum
    requires few { length files.now ≤ 16 }
    requires few_links { All (λ f. length f.profile.links < 2 ^ 25) files.now }
    requires small { All IsSmall files.now }
    requires there { All (λ f. id < length f.profile.statics.procs) files.now }
    ensures { IsProcSum files.now id result }
{
    let mut own = Sums::ZERO;
    let mut total = Sums::ZERO;
    for file in files {
        own = own.plus(file.proc_own(id));
        total = total.plus(file.proc_total(id));
    }
    ProcSum { id, own, total }
}

// Each count of a link is a number of 32 bits. A proof knows it where the link is read, so these loops read them. They do
// nothing else.

fn are_all_small(files: &[Loaded])
    ensures { All IsSmall files.now }
{
    for file in files {
        are_small(file.profile().links());
    }
}

pub(crate) fn are_small(links: &[LinkRow])
    ensures { AreSmall links.now }
{
    for link in links {
        let _own = Sums::from_counts(link.own);
    }
}
