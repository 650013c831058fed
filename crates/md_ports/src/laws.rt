// Laws of the tables of a program. Each is the contract of a function that does nothing.
ghost use Rattle.std.specs.Prelude.{ℕ, ◌≡◌, ◌<◌, ◌≤◌, ◌^◌, ◌+◌, ◌-◌, All, List, length, map, Some};
ghost use Rattle.md_hlds.specs.Hlds.{Procedure, Hlds, sites_of, procedure_called};
ghost use Rattle.md_hlds.specs.Run.{main_name};
ghost use Rattle.md_reader.specs.Grammar.{Spells};
ghost use Rattle.law_events.specs.Table as events;
ghost use Rattle.md_static.specs.Sound.{IsSound};
ghost use Rattle.md_static.specs.Tables.{site_table};
ghost use Rattle.md_ports.specs.Ports.{statics_of, owner_and_line};
ghost use Rattle.md_ports.specs.Orderly.{IsOrderly};

/// The tables of a program whose names and lines are as the language and the limits of a text ask are sound.
pub fn tables_are_sound()
    ensures { (program : Hlds) → IsOrderly program → IsSound (statics_of program) }
{}

/// So are those of a program that a text spells and that declares a main.
pub fn tables_of_a_text_are_sound()
    ensures { (text : List ℕ) (program : Hlds) (main : ℕ × Procedure) → Spells text program → length text < 2 ^ 32 - 1 → procedure_called program main_name ≡ Some main → IsSound (statics_of program) }
{}

/// Each call site of a text's program stands on a line of the text, which has no more line feeds than bytes.
pub fn sites_of_a_text_have_its_lines()
    ensures { (text : List ℕ) (program : Hlds) → Spells text program → All (λ x. x.line ≤ length text + 1) (statics_of program).sites }
{}

/// The call sites of the tables have the owners and lines of the program's call sites, in the same order.
pub fn sites_keep_their_lines()
    ensures { (program : Hlds) → map owner_and_line (statics_of program).sites ≡ sites_of program }
{}

/// With the program's main the tables give the site table over which the events of a run are a port history.
pub fn tables_give_the_site_table()
    ensures { (program : Hlds) → site_table (statics_of program) (events.number_or_zero (events.number_of (procedure_called program main_name))) ≡ events.site_table program }
{}
