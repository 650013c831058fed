// Laws over the definition of printing alone. Each is the contract of a function that does nothing.
ghost use Rattle.std.specs.Prelude.{◌≡◌};
ghost use Rattle.md_hlds.specs.Hlds.{Hlds};
ghost use Rattle.md_printer.specs.Lines.{unlined, IsSpelled, SpellsUpToLines};
ghost use Rattle.md_printer.specs.Printed.{printed};

/// Programs that differ in line numbers alone have the same printed text.
pub fn lines_are_not_printed()
    ensures { (a b : Hlds) → unlined a ≡ unlined b → printed a ≡ printed b }
{}

/// The printed text of a program that some text spells, spells that program but for line numbers; and printed once
/// more, it is the same text.
pub fn printed_texts_are_printed_again()
    ensures { (l : Hlds) → IsSpelled l → (again : SpellsUpToLines (printed l) l) × (printed again.listing ≡ printed l) }
{}
