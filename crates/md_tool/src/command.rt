// The commands, with what each does to the store, the streams and the net.
ghost use Rattle.std.specs.Prelude.{ℕ, ◌≡◌, ◌≤◌, List, length, Result, Some, true};
ghost use Rattle.md_base.specs.Outside.{Rose};
ghost use Rattle.md_commands.specs.Form.{words_of, HasBounds, form};
ghost use Rattle.md_commands.specs.Told.{told, texts};
ghost use Rattle.md_tool.specs.Compared.{CompareEnds};
ghost use Rattle.md_tool.specs.Served.{net_side};
ghost use Rattle.md_tool.specs.Summed.{SumEnds};
ghost use Rattle.md_tool.specs.Told.{Tells, EndIsTold, TopEnds};
ghost use Rattle.md_tool.specs.Meaning.{Means, keeps_store, keeps_net};
ghost use Rattle.md_tool.specs.Rises.{AreTold, IsToldBy};

use crate::check::check_file;
use crate::compare::compare_files;
use crate::fault::Fault;
use crate::generate::generate;
use crate::pairs::feedback_file;
use crate::report::report_file;
use crate::run::run_file;
use crate::serve::serve_file;
use crate::stored::{migrate_file, page_of_file};
use crate::sums::sum_files;
use crate::texts::{dump_file, undump_file};
use crate::turns::cover_file;
use md_base::{Measure, Net, Sink, Store, WriteFault, write_whole};
use md_commands::{Command, command_of};
use std::alloc::Global;

/// An exit status: 0 where all was done and a run was finished, and else the status of a fault.
#[derive(Clone, Copy, Debug, PartialEq, Eq)]
pub struct Status(pub u8);

/// Does what the words of a command line ask for.
///
/// `check FILE` writes that the file's program is accepted, and `check FILE --print` its printed text. `run FILE` runs the
/// program within 1,000,000 steps, or as many as `--steps` gives, writes what it writes to `out`, and stores the profile of
/// the run in `mdprof.data`, or under the name that `--profile` gives. `report FILE QUERY` runs the program as `run` does,
/// but writes what it writes to `err`, with a line that ends it, and then to `out` the page of the run that is asked for.
/// `page NAME QUERY` writes the page of a stored profile, and `migrate NAME NEW` stores it in the newer form. `serve NAME --port P
/// --requests N` serves the pages of a stored profile over HTTP to as many connections, and writes how many came and how many
/// of them were answered. `dump NAME` writes a stored profile as a text, and `undump TEXT NEW` stores the profile that such a
/// text spells. `sum NAME ..` adds up what each procedure cost over 1 to 16 stored profiles of one program. `compare OLD NEW` writes
/// which procedures cost otherwise in one stored profile than in another, by the measure that `--by` names, or calls, and from a
/// difference on of as many thousandths of the old whole as `--least` says, or 5. `cover FILE PROC` runs the program as `report` does,
/// and writes how often each goal of a procedure had a turn, which is given by its number or by its full name. `feedback FILE NEW` runs the program as `run` does, and stores which pairs of its calls could run side by side
/// with profit: those with 100 calls in all for each own one, or as many as `--least` gives. `gen N` writes a generated
/// program, and `gen N --summary` the menu of its run. A fault is told by a line on `err` and by the status: 1
/// where the words are no command, 2 where a file can't be read, 3 where a text isn't accepted as a program, 4 where the run
/// isn't finished, 5 where a file isn't a profile, 6 where a profile has no such page, 7 where something can't be written,
/// 8 where memory was refused, 9 where the net failed, 10 where an exception left the program's `main`, and 11 where a profile is of another program
/// than the first one that is added up. Where a count of faults rose the status tells it, whatever else is wrong: 2 for a read, 7 for a
/// write, 9 for the net.
pub fn top<S: Store, O: Sink, E: Sink, N: Net>(
    alloc: Global,
    words: &[String],
    store: &mut S,
    out: &mut O,
    err: &mut E,
    net: &mut N,
) -> Status
    ensures status { Means (form (words_of words.now)) (S.held store.old) (S.held store.new) (net_side (N.connections net.old) (N.listens_at net.old)) (net_side (N.connections net.new) (N.listens_at net.new)) (O.held out.old) (O.held out.new) (E.held err.old) (E.held err.new)
        (Rose (S.read_faults store.old) (S.read_faults store.new)) (Rose (S.write_faults store.old) (S.write_faults store.new))
        (Rose (O.write_faults out.old) (O.write_faults out.new)) (Rose (E.write_faults err.old) (E.write_faults err.new)) (Rose (N.faults net.old) (N.faults net.new)) result.0 }
    ensures ends { TopEnds (form (words_of words.now)) (S.held store.old) (S.held store.new) (net_side (N.connections net.old) (N.listens_at net.old)) (net_side (N.connections net.new) (N.listens_at net.new)) (O.held out.old) (O.held out.new) (E.held err.old) (E.held err.new)
        (Rose (S.read_faults store.old) (S.read_faults store.new)) (Rose (S.write_faults store.old) (S.write_faults store.new))
        (Rose (O.write_faults out.old) (O.write_faults out.new)) (Rose (E.write_faults err.old) (E.write_faults err.new)) (Rose (N.faults net.old) (N.faults net.new)) result.0 }
    ensures store { keeps_store (form (words_of words.now)) ≡ true → S.held store.new ≡ S.held store.old }
    ensures net { keeps_net (form (words_of words.now)) ≡ true → net.new ≡ net.old }
    ensures faults { AreTold result.0 (S.read_faults store.old) (S.read_faults store.new) (S.write_faults store.old) (S.write_faults store.new)
        (O.write_faults out.old) (O.write_faults out.new) (E.write_faults err.old) (E.write_faults err.new) (N.faults net.old) (N.faults net.new) }
{
    Status(run_command(alloc, words, store, out, err, net))
}

/// Does what the words ask for, tells a fault, and gives the status.
fn run_command<S: Store, O: Sink, E: Sink, N: Net>(
    alloc: Global,
    words: &[String],
    store: &mut S,
    out: &mut O,
    err: &mut E,
    net: &mut N,
) -> u8
    ensures ends { TopEnds (form (words_of words.now)) (S.held store.old) (S.held store.new) (net_side (N.connections net.old) (N.listens_at net.old)) (net_side (N.connections net.new) (N.listens_at net.new)) (O.held out.old) (O.held out.new) (E.held err.old) (E.held err.new)
        (Rose (S.read_faults store.old) (S.read_faults store.new)) (Rose (S.write_faults store.old) (S.write_faults store.new))
        (Rose (O.write_faults out.old) (O.write_faults out.new)) (Rose (E.write_faults err.old) (E.write_faults err.new)) (Rose (N.faults net.old) (N.faults net.new)) result }
    ensures net { keeps_net (form (words_of words.now)) ≡ true → net.new ≡ net.old }
    ensures faults { AreTold result (S.read_faults store.old) (S.read_faults store.new) (S.write_faults store.old) (S.write_faults store.new)
        (O.write_faults out.old) (O.write_faults out.new) (E.write_faults err.old) (E.write_faults err.new) (N.faults net.old) (N.faults net.new) }
{
    match command_of(alloc, words) {
        Err(_) => tell(alloc, &Fault::NoMemory, "", err),
        Ok(None) => tell(alloc, &Fault::Usage, "", err),
        Ok(Some(command)) => do_command(alloc, &command, store, out, err, net),
    }
}

/// Does a command, tells a fault, and gives the status.
fn do_command<S: Store, O: Sink, E: Sink, N: Net>(
    alloc: Global,
    command: &Command<'_>,
    store: &mut S,
    out: &mut O,
    err: &mut E,
    net: &mut N,
) -> u8
    requires { HasBounds (told command.now) }
    ensures ends { TopEnds (Some (told command.now)) (S.held store.old) (S.held store.new) (net_side (N.connections net.old) (N.listens_at net.old)) (net_side (N.connections net.new) (N.listens_at net.new)) (O.held out.old) (O.held out.new) (E.held err.old) (E.held err.new)
        (Rose (S.read_faults store.old) (S.read_faults store.new)) (Rose (S.write_faults store.old) (S.write_faults store.new))
        (Rose (O.write_faults out.old) (O.write_faults out.new)) (Rose (E.write_faults err.old) (E.write_faults err.new)) (Rose (N.faults net.old) (N.faults net.new)) result }
    ensures net { keeps_net (Some (told command.now)) ≡ true → net.new ≡ net.old }
    ensures faults { AreTold result (S.read_faults store.old) (S.read_faults store.new) (S.write_faults store.old) (S.write_faults store.new)
        (O.write_faults out.old) (O.write_faults out.new) (E.write_faults err.old) (E.write_faults err.new) (N.faults net.old) (N.faults net.new) }
{
    match command {
        Command::Check { file, print } => {
            let end = check_file(alloc, *file, *print, store, out);
            tell_end(alloc, end, *file, err)
        }
        Command::Run {
            file,
            steps,
            profile,
        } => {
            let end = run_file(alloc, *file, *steps, *profile, store, out);
            tell_end(alloc, end, *file, err)
        }
        Command::Report { file, query, steps } => {
            let end = report_file(alloc, *file, query, *steps, store, out, err);
            tell_end(alloc, end, *file, err)
        }
        Command::Page { name, query } => {
            let end = page_of_file(alloc, *name, query, store, out);
            tell_end(alloc, end, *name, err)
        }
        Command::Serve {
            name,
            port,
            requests,
        } => {
            let end = serve_file(alloc, *name, *port, *requests, store, out, net);
            tell_end(alloc, end, *name, err)
        }
        Command::Gen { n, summary } => {
            let end = generate(alloc, *n, *summary, out);
            tell_end(alloc, end, "gen", err)
        }
        Command::Migrate { name, new } => {
            let end = migrate_file(alloc, *name, *new, store, out);
            tell_end(alloc, end, *name, err)
        }
        Command::Feedback {
            file,
            new,
            steps,
            least,
        } => {
            let end = feedback_file(alloc, *file, *new, *steps, *least, store, out);
            tell_end(alloc, end, *file, err)
        }
        Command::Cover { file, proc, steps } => {
            let end = cover_file(alloc, *file, *proc, *steps, store, out, err);
            tell_end(alloc, end, *file, err)
        }
        Command::Dump { name } => {
            let end = dump_file(alloc, *name, store, out);
            tell_end(alloc, end, *name, err)
        }
        Command::Undump { text, new } => {
            let end = undump_file(alloc, *text, *new, store, out);
            tell_end(alloc, end, *text, err)
        }
        Command::Sum { names } => do_sum(alloc, names, store, out, err),
        Command::Compare {
            old,
            new,
            by,
            least,
        } => do_compare(alloc, *old, *new, *by, *least, store, out, err),
    }
}

/// Adds up the stored profiles of these names, tells a fault, and gives the status.
fn do_sum<S: Store, O: Sink, E: Sink>(
    alloc: Global,
    names: &[&str],
    store: &mut S,
    out: &mut O,
    err: &mut E,
) -> u8
    requires some { 1 ≤ length names.now }
    requires few { length names.now ≤ 16 }
    ensures ends { (end : Result (Unit {0}) Fault) × (at : List ℕ) × SumEnds (S.held store.old) (texts names.now) at (O.held out.old) (O.held out.new)
        (Rose (S.read_faults store.old) (S.read_faults store.new)) (Rose (O.write_faults out.old) (O.write_faults out.new)) end
        × EndIsTold end at (E.held err.old) (E.held err.new) (Rose (E.write_faults err.old) (E.write_faults err.new)) result }
    ensures kept { S.held store.new ≡ S.held store.old }
    ensures reads { IsToldBy 2 result (S.read_faults store.old) (S.read_faults store.new) }
    ensures writes { S.write_faults store.new ≡ S.write_faults store.old }
    ensures outs { IsToldBy 7 result (O.write_faults out.old) (O.write_faults out.new) }
    ensures errs { result ≡ 0 → E.write_faults err.new ≡ E.write_faults err.old }
{
    match sum_files(alloc, names, store, out) {
        Ok(()) => 0,
        Err(stopped) => tell(alloc, &stopped.fault, stopped.file, err),
    }
}

/// Compares the stored profiles of two names, tells a fault, and gives the status.
fn do_compare<S: Store, O: Sink, E: Sink>(
    alloc: Global,
    old: &str,
    new: &str,
    by: Measure,
    least: u32,
    store: &mut S,
    out: &mut O,
    err: &mut E,
) -> u8
    ensures ends { (end : Result (Unit {0}) Fault) × (at : List ℕ) × CompareEnds (S.held store.old) old.now new.now by least at (O.held out.old) (O.held out.new)
        (Rose (S.read_faults store.old) (S.read_faults store.new)) (Rose (O.write_faults out.old) (O.write_faults out.new)) end
        × EndIsTold end at (E.held err.old) (E.held err.new) (Rose (E.write_faults err.old) (E.write_faults err.new)) result }
    ensures kept { S.held store.new ≡ S.held store.old }
    ensures reads { IsToldBy 2 result (S.read_faults store.old) (S.read_faults store.new) }
    ensures writes { S.write_faults store.new ≡ S.write_faults store.old }
    ensures outs { IsToldBy 7 result (O.write_faults out.old) (O.write_faults out.new) }
    ensures errs { result ≡ 0 → E.write_faults err.new ≡ E.write_faults err.old }
{
    match compare_files(alloc, old, new, by, least, store, out) {
        Ok(()) => 0,
        Err(stopped) => tell(alloc, &stopped.fault, stopped.file, err),
    }
}

/// Tells how a command ended, and gives the status.
fn tell_end<E: Sink>(alloc: Global, end: Result<(), Fault>, file: &str, err: &mut E) -> u8
    ensures told { EndIsTold end file.now (E.held err.old) (E.held err.new) (Rose (E.write_faults err.old) (E.write_faults err.new)) result }
    ensures later { E.write_faults err.old ≤ E.write_faults err.new }
    ensures errs { result ≡ 0 → E.write_faults err.new ≡ E.write_faults err.old }
{
    match end {
        Ok(()) => 0,
        Err(fault) => tell(alloc, &fault, file, err),
    }
}

/// Writes the line that tells of a fault, and gives its status.
fn tell<E: Sink>(alloc: Global, fault: &Fault, file: &str, err: &mut E) -> u8
    ensures told { Tells fault.now file.now (E.held err.old) (E.held err.new) (Rose (E.write_faults err.old) (E.write_faults err.new)) result }
    ensures later { E.write_faults err.old ≤ E.write_faults err.new }
    ensures errs { result ≡ 0 → E.write_faults err.new ≡ E.write_faults err.old }
{
    let Ok(line) = fault.line(alloc, file) else {
        return Fault::NoMemory.status();
    };
    match write_whole(err, &line) {
        Ok(()) => fault.status(),
        Err(WriteFault::Write) => fault.status(),
        Err(WriteFault::NoMemory) => Fault::NoMemory.status(),
    }
}
