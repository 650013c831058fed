// A clause with how often each of its variables occurs.
ghost use Rattle.std.specs.Prelude.{◌^◌};
ghost use Rattle.md_hlds.specs.Hlds.{hlds_of, procedure_of};
ghost use Rattle.md_modes.specs.Goals.{clause_variables};
ghost use Rattle.md_modes.specs.Tally.{AreCounts};
ghost use Rattle.md_reader.specs.Arguments.{HaveFewArguments};

use md_hlds::Pred;
use md_names::Names;

/// A clause of a program, with the program's names and with how often each variable of the clause occurs. No functor of the program has
/// more arguments than there are numbers of 32 bits.
#[derive(Drop)]
pub struct Clause<'a, 'b> {
    pub names: &'b Names<'a>,
    pub pred: &'a Pred,
    pub counts: Vec<u64>,
    pub ghost few: { HaveFewArguments (2 ^ 32) (hlds_of names.now).types },
    pub ghost counted: { AreCounts counts.items (clause_variables (procedure_of pred.now)) },
}
