// A run on its way through a file. Each law is the contract of a function that does nothing.
ghost use Rattle.std.specs.Prelude.{ℕ, ◌≤◌, ◌<◌, ◌^◌, List, Option, Some, Result, length};
ghost use Rattle.md_base.specs.Files.{Files};
ghost use Rattle.md_base.specs.Outside.{Rose};
ghost use Rattle.md_query.specs.Asked.{Asked};
ghost use Rattle.md_http.specs.declared.serving.ServeFault.{ServeFault};
ghost use Rattle.md_http.specs.declared.serving.Tally.{Tally};
ghost use Rattle.md_tool.specs.Accepted.{Accepted};
ghost use Rattle.md_tool.specs.Due.{longest};
ghost use Rattle.md_tool.specs.Ends.{RunEnd};
ghost use Rattle.md_tool.specs.Kept.{HasRun, IsRunFile};
ghost use Rattle.md_tool.specs.Served.{NetSide, HasServed};
ghost use Rattle.law_files.specs.Through.{HasLeftFile, HoldsRunFile, IsServedByRun, PageShowsTheRun, SayTheRun};

/// Each file that `run` may leave of an accepted text, within a budget, spells exactly one profile, and nothing is wrong
/// with it. That profile is valid, no clique of it is entered by two links, and it has one view: the view of the run. So
/// for each query the page of the file is the one that `report` prints of the same text and budget, and the file has none
/// exactly where the run has none.
pub fn files_say_what_the_run_says()
    ensures { (text : List ℕ) (accepted : Accepted text) (steps : ℕ) (bytes : List ℕ) → length text ≤ longest → steps < 2 ^ 32
        → IsRunFile steps accepted.program bytes → SayTheRun steps accepted.program bytes }
{}

/// Where `run` was done with a program, whatever the end of the run, a store that tells its content has such a file.
pub fn run_leaves_its_file()
    ensures { (files : Files) (held : Option Files) (file name : List ℕ) (steps : ℕ) (out out' : Option (List ℕ)) (end : RunEnd) (ran : HasRun (IsRunFile steps) (Some files) held file steps name out out' end)
        → HasLeftFile held name steps ran.accepted.program }
{}

/// What `page` comes to where the store has such a file: it writes the page of the run, or tells that the run has none.
/// It never tells of damage, nor of a clique that two links enter. The four last numbers count the faults of the store's
/// reads and of the output before the call and after it.
pub fn pages_show_the_run()
    ensures { (text : List ℕ) (accepted : Accepted text) (steps : ℕ) (files : Files) (name : List ℕ) (query : Asked) (out out' : Option (List ℕ)) (reads reads' writes writes' : ℕ) → length text ≤ longest → steps < 2 ^ 32
        → HoldsRunFile files name steps accepted.program → PageShowsTheRun steps accepted.program (Some files) name query out out' (Rose reads reads') (Rose writes writes') }
{}

/// What `serve` answers then, it answers by the view of the run, at the port that was asked for.
pub fn serving_tells_the_run()
    ensures { (text : List ℕ) (accepted : Accepted text) (steps : ℕ) (files : Files) (name : List ℕ) (port requests : ℕ) (net net' : NetSide) (r : Result Tally ServeFault) → length text ≤ longest → steps < 2 ^ 32
        → HoldsRunFile files name steps accepted.program → HasServed (Some files) name port requests net net' r → IsServedByRun steps accepted.program port requests net net' r }
{}
