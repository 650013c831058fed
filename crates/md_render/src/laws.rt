// A law over definitions alone: the contract of a function that does nothing.
ghost use Rattle.std.specs.Prelude.{ℕ, List};
ghost use Rattle.md_static.specs.Sound.{IsSound};
ghost use Rattle.md_static.specs.Tables.{Static};
ghost use Rattle.md_render.specs.Named.{AreAnchors, HaveArities};

/// In the HTML of a table what a row is of is an anchor: its procedure by the full name, its context and its clique.
pub fn rows_are_anchors()
    ensures { (by : List ℕ) (s : Static) → IsSound s → HaveArities s → AreAnchors by s }
{}
