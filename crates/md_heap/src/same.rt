// Whether two values are the same, pair of nodes by pair of nodes.
ghost use Rattle.std.specs.Prelude.{◌≡◌};
ghost use Rattle.md_heap.specs.Pending.{plain_look};

use crate::heap::Heap;
use crate::value::Value;
use md_base::NoMemory;

/// The answer of a comparison: pairs of nodes are counted in preorder from left to right, up to and including the first
/// that differs.
#[derive(Clone, Copy, Debug, PartialEq, Eq)]
pub enum Same {
    /// So many pairs were compared, and none differs.
    Equal(u32),
    /// The last of so many pairs differs.
    Differ(u32),
    /// More pairs are needed than the limit allows.
    Over,
}

/// Two cells of as many parts; those from a place on are still to be compared.
#[derive(Clone, Copy)]
pub struct Frame {
    pub first: u64,
    pub second: u64,
    pub place: usize,
    pub count: usize,
}

/// What a look at two nodes finds.
#[derive(Clone, Copy)]
pub enum Look {
    /// They differ.
    Differing,
    /// They are equal, and have no parts.
    Alike,
    /// They are equal, and have these parts.
    Below(Frame),
}

/// What a step of a comparison comes to.
#[derive(Clone, Copy)]
pub enum Step {
    /// A pair that differs.
    Found,
    /// No pair is left.
    Done,
    /// This pair is next.
    Next(Value, Value),
}

impl Heap {
    ghost use Rattle.std.specs.Prelude.{◌≡◌, ◌<◌, length, All, IfOk, OnOk};
    ghost use Rattle.md_heap.specs.Tree.{compared, then_compared, same_within};
    ghost use Rattle.md_heap.specs.Cells.{IsThere, tree_of};
    ghost use Rattle.md_heap.specs.Pending.{IsFrame, IsLook, IsStep, look_due, step_due, due, more};

    /// Whether two values are the same, within a limit of pairs of nodes: `Over` exactly where more are needed. The
    /// stack holds at most one frame for each pair compared.
    pub fn same(&self, a: Value, b: Value, limit: u32) -> Result<Same, NoMemory>
        requires a_there { IsThere (length self.now) a }
        requires b_there { IsThere (length self.now) b }
        ensures { IfOk result (λ same. same ≡ same_within limit (compared (tree_of self.now a) (tree_of self.now b))) }
    {
        let mut todo = Vec::new(self.allocator());
        let mut v = a;
        let mut w = b;
        for pairs in 0..limit {
            match self.compare_pair(v, w, &mut todo)? {
                Step::Found => return Ok(Same::Differ(pairs + 1)),
                Step::Done => return Ok(Same::Equal(pairs + 1)),
                Step::Next(x, y) => {
                    v = x;
                    w = y;
                }
            }
        }
        Ok(Same::Over)
    }

    /// Compares one pair of nodes, and finds the next pair.
    fn compare_pair(&self, v: Value, w: Value, todo: &mut Vec<Frame>) -> Result<Step, NoMemory>
        requires v_there { IsThere (length self.now) v }
        requires w_there { IsThere (length self.now) w }
        requires frames { All (IsFrame self.now) todo.old.items }
        ensures sum { IfOk result (λ step. then_compared (compared (tree_of self.now v) (tree_of self.now w)) (due self.now todo.old.items) ≡ more 1 (step_due self.now step todo.new.items)) }
        ensures step { IfOk result (λ step. IsStep (length self.now) step) }
        ensures frames { OnOk result (All (IsFrame self.now) todo.new.items) }
    {
        match self.look(v, w) {
            Look::Differing => Ok(Step::Found),
            Look::Alike => Ok(self.next_pair(todo)),
            Look::Below(frame) => {
                todo.push(frame)?;
                Ok(self.next_pair(todo))
            }
        }
    }

    /// Compares two nodes without their parts.
    fn look(&self, v: Value, w: Value) -> Look
        requires v_there { IsThere (length self.now) v }
        requires w_there { IsThere (length self.now) w }
        ensures sum { compared (tree_of self.now v) (tree_of self.now w) ≡ look_due self.now result }
        ensures frame { IsLook self.now result }
    {
        match (v, w) {
            (Value::Int(m), Value::Int(n)) => look_of(m == n),
            (Value::Lit(m), Value::Lit(n)) => look_of(m == n),
            (Value::Cell(m), Value::Cell(n)) => self.look_at_cells(m, n),
            _ => Look::Differing,
        }
    }

    /// Compares two cells without their parts.
    fn look_at_cells(&self, m: u64, n: u64) -> Look
        requires m_there { m < length self.now }
        requires n_there { n < length self.now }
        ensures sum { compared (tree_of self.now (Value.Cell m)) (tree_of self.now (Value.Cell n)) ≡ look_due self.now result }
        ensures frame { IsLook self.now result }
    {
        let count = self.part_count(m);
        if self.head(m) != self.head(n) || count != self.part_count(n) {
            return Look::Differing;
        }
        if count == 0 {
            return Look::Alike;
        }
        Look::Below(Frame {
            first: m,
            second: n,
            place: 0,
            count,
        })
    }

    /// Takes the next pair from the innermost frame, which goes with its last pair.
    fn next_pair(&self, todo: &mut Vec<Frame>) -> Step
        requires { All (IsFrame self.now) todo.old.items }
        ensures sum { due self.now todo.old.items ≡ step_due self.now result todo.new.items }
        ensures step { IsStep (length self.now) result }
        ensures frames { All (IsFrame self.now) todo.new.items }
    {
        let Some(frame) = todo.pop() else {
            return Step::Done;
        };
        let v = self.part_at(frame.first, frame.place);
        let w = self.part_at(frame.second, frame.place);
        if frame.place + 1 < frame.count {
            todo.push_reserved(Frame {
                place: frame.place + 1,
                ..frame
            });
        }
        Step::Next(v, w)
    }
}

/// What a look at two nodes without parts finds.
fn look_of(equal: bool) -> Look
    ensures { result ≡ plain_look equal }
{
    if equal { Look::Alike } else { Look::Differing }
}
