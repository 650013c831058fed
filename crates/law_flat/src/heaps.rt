// Values of a machine's heap as values of a program. Each law is the contract of a function that does nothing.
ghost use Rattle.std.specs.Prelude.{◌≡◌, ◌<◌, ◌≤◌, ℕ, nat_eq, List, ◌∷◌, length, map, All};
ghost use Rattle.std.specs.Str.{bytes_eq};
ghost use Rattle.md_hlds.specs.Hlds.{Hlds};
ghost use Rattle.md_hlds.specs.Value.{Built, Closure, gathered_values};
ghost use Rattle.md_hlds.specs.Value as value;
ghost use Rattle.md_heap.specs.declared.value.Value.{Value};
ghost use Rattle.md_heap.specs.declared.value.Value.TheVariants.{Cell};
ghost use Rattle.md_heap.specs.Tree as tree;
ghost use Rattle.md_heap.specs.Cells.{Node, Cells, tree_of};
ghost use Rattle.md_code.specs.Tables.{functors_of, functor_number, closure_head};
ghost use Rattle.law_flat.specs.Told.{literal_bytes, told, IsHead, IsGood, AreBuilt, found};

/// A new cell whose head is that of a functor tells the functor of what its parts tell, and one whose head is a closure's a
/// closure of them; all other values stay what they were. The heap stays one of cells that code builds.
pub fn cells_are_told()
    ensures functor { (s : Hlds) (name : List ℕ) (parts : List Value) (cells : Cells) → functor_number s name (length parts) < length (functors_of s) → told s (record { head = functor_number s name (length parts); parts = parts } ∷ cells) (Cell (length cells)) ≡ Built name (gathered_values (map (told s cells) parts)) }
    ensures closure { (s : Hlds) (q : ℕ) (parts : List Value) (cells : Cells) → told s (record { head = closure_head s q; parts = parts } ∷ cells) (Cell (length cells)) ≡ Closure q (gathered_values (map (told s cells) parts)) }
    ensures others { (s : Hlds) (c : Node) (cells : Cells) (v : Value) → IsGood s (length cells) v → told s (c ∷ cells) v ≡ told s cells v }
    ensures functor_head { (s : Hlds) (name : List ℕ) (arity : ℕ) → IsHead s (functor_number s name arity) arity }
    ensures closure_head { (s : Hlds) (q arity : ℕ) → IsHead s (closure_head s q) arity }
    ensures built { (s : Hlds) (head : ℕ) (parts : List Value) (cells : Cells) → length (functors_of s) ≤ length cells → IsHead s head (length parts) → All (IsGood s (length cells)) parts → AreBuilt s cells → AreBuilt s (record { head = head; parts = parts } ∷ cells) }
{}

/// Literals are equal just where their numbers are; and two values of a heap of cells that code builds are compared as what they
/// tell: pair by pair.
pub fn comparisons_go_the_same()
    ensures literals { (s : Hlds) (a b : ℕ) → bytes_eq (literal_bytes s a) (literal_bytes s b) ≡ nat_eq a b }
    ensures values { (s : Hlds) (cells : Cells) (v w : Value) → AreBuilt s cells → IsGood s (length cells) v → IsGood s (length cells) w → value.compared (told s cells v) (told s cells w) ≡ found (tree.compared (tree_of cells v) (tree_of cells w)) }
{}
