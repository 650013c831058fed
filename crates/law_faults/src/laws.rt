// Laws over the definition of a faulty line.
ghost use Rattle.std.specs.Prelude.{ℕ, ◌≡◌, ◌↔◌, ◌⊎◌, List};
ghost use Rattle.md_dynamic.specs.Profile.{ProfileRows};
ghost use Rattle.md_dump.specs.Spells.{IsFirstFault, Spells};
ghost use Rattle.md_dump.specs.Text.{dump_text};
ghost use Rattle.law_faults.specs.Fault.{IsFirstFaulty};
ghost use Rattle.law_faults.specs.Lines.{laid, lines};

/// The line that a reader of a text finds at fault is the first that, behind those before it, is a line of no rows that keep the rules,
/// or else that of the lowest orphan: it finds every such line, and no other.
pub fn faults_are_first_faulty_lines()
    ensures { (text : List ℕ) (n : ℕ) → IsFirstFault text n ↔ IsFirstFaulty text n }
{}

/// A text spells a profile or has one first faulty line, and never both.
pub fn texts_spell_a_profile_or_have_one_faulty_line()
    ensures either { (text : List ℕ) → ((f : ProfileRows) × Spells text f) ⊎ ((n : ℕ) × IsFirstFaulty text n) }
    ensures one { (text : List ℕ) (m n : ℕ) → IsFirstFaulty text m → IsFirstFaulty text n → m ≡ n }
    ensures never_both { (text : List ℕ) (f : ProfileRows) (n : ℕ) → Spells text f → IsFirstFaulty text n → ⊥ }
{}

/// The text of a profile is its lines, one behind the other.
pub fn profiles_are_written_in_lines()
    ensures { (f : ProfileRows) → dump_text f ≡ laid (lines f) }
{}
