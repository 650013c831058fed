// What tells the links of a profile apart, so that one that was there before is found at once.
ghost use Rattle.std.specs.Prelude.{ℕ, ◌≡◌, ◌||◌, ◌+◌, ◌*◌, ◌%◌, false, not, slice_get, IfOk, OnOk, OnErr};
ghost use Rattle.md_deepfile.specs.Sets.{is_key, seat_of, is_empty, sits_at, has_seated};

use indexmap::IndexSet;
use md_base::NoMemory;
use std::alloc::Global;
use std::marker::Model;

/// How many seats a context has.
const SEATS: usize = 4;

/// A place for one link of a context.
#[derive(Clone, Copy)]
pub(crate) enum Seat {
    Empty,
    /// A link by its site and the procedure that it calls.
    Of(u32, u32),
}

/// Callers, sites and called procedures of links. A context has four seats, and each of its sites one of them. The first
/// link that comes to a seat sits there, and those that come later are in a set. So a link that finds its seat empty is
/// new, and nothing is hashed for it: in a run few contexts call from more sites than they have seats.
#[derive(Drop)]
pub(crate) struct LinkKeys {
    seats: Vec<Seat>,
    others: IndexSet<(u32, u32, u32)>,
}

impl Model for LinkKeys {
    ghost use Rattle.md_deepfile.specs.Sets.{Seating, AreSeated};

    ghost Value = { Seating };

    ghost view = { λ k. record { sitting = k.seats.items; others = k.others.keys } };

    ghost invariant = { λ k. AreSeated k.seats.items k.others.keys };
}

impl LinkKeys {
    /// None.
    pub(crate) fn new(alloc: Global) -> LinkKeys
        ensures { (v s q : ℕ) → has_seated result v s q ≡ false }
    {
        LinkKeys {
            seats: Vec::new(alloc),
            others: IndexSet::new(alloc),
        }
    }

    /// Gives seats to one more context, where there is no link yet.
    pub(crate) fn add_context(&mut self) -> Result<(), NoMemory>
        requires { (v s q : ℕ) → has_seated self.old v s q ≡ false }
        ensures { (v s q : ℕ) → has_seated self.new v s q ≡ false }
    {
        self.seats.extend_from_slice(&[Seat::Empty; SEATS])?;
        Ok(())
    }

    /// Adds a link, and answers whether none of the same caller, site and procedure was there before.
    pub(crate) fn insert(&mut self, caller: u32, site: u32, proc: u32) -> Result<bool, NoMemory>
        ensures added { IfOk result (λ added. added ≡ not (has_seated self.old caller site proc)) }
        ensures now { OnOk result ((v s q : ℕ) → has_seated self.new v s q ≡ (has_seated self.old v s q || is_key v s q (caller, site, proc))) }
        ensures kept { IfOk result (λ added. added ≡ false → self.new ≡ self.old) }
        ensures refused { OnErr result (self.new ≡ self.old) }
    {
        let at = seat_of(caller, site);
        if is_empty(&self.seats, at) {
            self.seats[at] = Seat::Of(site, proc);
            return Ok(true);
        }
        if sits(&self.seats, at, site, proc) {
            return Ok(false);
        }
        Ok(self.others.insert((caller, site, proc))?)
    }
}

/// The seat of a context's site.
fn seat_of(caller: u32, site: u32) -> usize
    ensures { result ≡ seat_of caller site }
{
    caller as usize * SEATS + site as usize % SEATS
}

/// Whether a seat is there and no link has it.
fn is_empty(seats: &[Seat], at: usize) -> bool
    ensures { result ≡ is_empty (slice_get seats.now at) }
{
    match seats.get(at) {
        Some(Seat::Empty) => true,
        Some(Seat::Of(_, _)) => false,
        None => false,
    }
}

/// Whether the link of this site and procedure has a seat.
fn sits(seats: &[Seat], at: usize, site: u32, proc: u32) -> bool
    ensures { result ≡ sits_at (slice_get seats.now at) site proc }
{
    match seats.get(at) {
        Some(Seat::Of(its_site, its_proc)) => site == *its_site && proc == *its_proc,
        Some(Seat::Empty) => false,
        None => false,
    }
}
