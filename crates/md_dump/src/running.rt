// The costs of a program's procedures, added up over profiles that come one after the other.
ghost use Rattle.std.specs.Prelude.{◌≡◌, ◌+◌, ◌<◌, ◌^◌, ◌++◌, ◌∷◌, [], ℕ, List, All, Option, None, Some, length, IfOk, OnOk, OnErr, option_map};
ghost use Rattle.md_cost.specs.Loading.{LoadedRows};
ghost use Rattle.md_dump.specs.Sums.{IsSmall, AreProcSums, AreOfOne, IsFirstOther, IsSumOver, IsRowMore, AreRowsMore, HasRoom, SumRows};

use crate::same::same_statics;
use crate::summing::{ProcSum, are_small, sum_procs};
use md_base::NoMemory;
use md_cost::Loaded;
use md_static::Statics;
use std::alloc::Global;
use std::marker::Model;
use std::slice;

/// The costs of a program's procedures, added up over profiles that come one after the other. Of the profiles it keeps the
/// tables of the first one and the sums, and nothing else.
#[derive(Drop)]
pub struct RunningSums {
    statics: Option<Statics>,
    rows: Vec<ProcSum>,
    count: u32,
    other: Option<u32>,
}

impl Model for RunningSums {
    ghost use Rattle.md_dump.specs.Sums.{SumRows};

    ghost Value = { SumRows };

    ghost view = { λ s. record { statics = s.statics; rows = s.rows.items; count = s.count; other = s.other } };
}

impl RunningSums {
    /// Nothing added up yet.
    pub fn new(alloc: Global) -> RunningSums
        ensures { IsSumOver [] result }
    {
        RunningSums {
            statics: None,
            rows: Vec::new(alloc),
            count: 0,
            other: None,
        }
    }

    /// Adds a file. Where memory is refused nothing is added.
    pub fn add(&mut self, alloc: Global, file: &Loaded) -> Result<(), NoMemory>
        requires few { self.old.count < 16 }
        requires few_links { length file.now.profile.links < 2 ^ 25 }
        requires sums { (files : List LoadedRows) × IsSumOver files self.old }
        ensures added { OnOk result ((files : List LoadedRows) → IsSumOver files self.old → IsSumOver (files ++ file.now ∷ []) self.new) }
        ensures kept { OnErr result (self.new ≡ self.old) }
    {
        is_small(file);
        if self.other.is_some() {
            self.count += 1;
            return Ok(());
        }
        match &self.statics {
            None => self.begin(alloc, file),
            Some(first) if same_statics(file.profile().statics(), first) => {
                self.rows = rows_more(alloc, &self.rows, file)?;
                self.count += 1;
                Ok(())
            }
            Some(_) => {
                self.other = Some(self.count);
                self.count += 1;
                Ok(())
            }
        }
    }

    /// Keeps the tables and the sums of the first file.
    fn begin(&mut self, alloc: Global, file: &Loaded) -> Result<(), NoMemory>
        requires few { self.old.count < 16 }
        requires few_links { length file.now.profile.links < 2 ^ 25 }
        ensures statics { OnOk result (self.new.statics ≡ Some file.now.profile.statics) }
        ensures rows { OnOk result (AreProcSums (file.now ∷ []) self.new.rows) }
        ensures others { OnOk result (self.new.other ≡ self.old.other) }
        ensures count { OnOk result (self.new.count ≡ self.old.count + 1) }
        ensures kept { OnErr result (self.new ≡ self.old) }
    {
        let statics = file.profile().statics().copy()?;
        let rows = first_rows(alloc, file)?;
        self.statics = Some(statics);
        self.rows = rows;
        self.count += 1;
        Ok(())
    }

    /// The first file, by its place from 0, that is of another program than the first one.
    pub fn first_other(&self) -> Option<u32>
        ensures { result ≡ self.now.other }
    {
        self.other
    }

    /// The tables of the first file.
    pub fn statics(&self) -> Option<&Statics>
        ensures { option_map (λ s. s.now) result ≡ self.now.statics }
    {
        self.statics.as_ref()
    }

    /// The sums of each procedure, where all files are of one program.
    pub fn rows(&self) -> &[ProcSum]
        ensures { result.now ≡ self.now.rows }
    {
        self.rows.as_slice()
    }
}

// A proof knows where a file's counts are read that they are numbers of 32 bits. It does nothing else.
fn is_small(file: &Loaded)
    ensures { IsSmall file.now }
{
    are_small(file.profile().links());
}

/// The costs of each procedure in one file.
fn first_rows(alloc: Global, file: &Loaded) -> Result<Vec<ProcSum>, NoMemory>
    requires few_links { length file.now.profile.links < 2 ^ 25 }
    ensures { IfOk result (λ rows. AreProcSums (file.now ∷ []) rows.items) }
{
    match sum_procs(alloc, slice::from_ref(file)) {
        Ok(rows) => Ok(rows),
        Err(_) => Err(NoMemory),
    }
}

/// Each row with the costs of one file more.
fn rows_more(alloc: Global, rows: &[ProcSum], file: &Loaded) -> Result<Vec<ProcSum>, NoMemory>
    requires small { IsSmall file.now }
    requires few_links { length file.now.profile.links < 2 ^ 25 }
    requires there { All (λ row. row.id < length file.now.profile.statics.procs) rows.now }
    requires room { All HasRoom rows.now }
    ensures { IfOk result (λ more. AreRowsMore file.now rows.now more.items) }
{
    let mut more = Vec::with_capacity(alloc, rows.len())?;
    for row in rows {
        more.push(row_more(*row, file))?;
    }
    Ok(more)
}

/// A row with the costs of one file more.
fn row_more(row: ProcSum, file: &Loaded) -> ProcSum
    requires small { IsSmall file.now }
    requires few_links { length file.now.profile.links < 2 ^ 25 }
    requires there { row.id < length file.now.profile.statics.procs }
    requires room { HasRoom row }
    ensures { IsRowMore file.now row result }
{
    ProcSum {
        id: row.id,
        own: row.own.plus(file.proc_own(row.id)),
        total: row.total.plus(file.proc_total(row.id)),
    }
}

/// What is kept of files that are added up one after the other is what adding them all up at once gives: the same rows
/// where they are of one program, and else the same file of another one.
pub fn one_after_the_other_gives_the_same()
    ensures rows { (files : List LoadedRows) (s : SumRows) (rows : List ProcSum) → 0 < length files → IsSumOver files s → AreOfOne files → AreProcSums files rows → (s.other ≡ None) × (s.rows ≡ rows) }
    ensures other { (files : List LoadedRows) (s : SumRows) (place : ℕ) → IsSumOver files s → IsFirstOther files place → s.other ≡ Some place }
{}
