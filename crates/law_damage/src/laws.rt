// Laws over the definition of a damage.
ghost use Rattle.std.specs.Prelude.{ℕ, ◌≡◌, ◌↔◌, ◌⊎◌, ◌<◌, All, List};
ghost use Rattle.md_dynamic.specs.Profile.{ProfileRows};
ghost use Rattle.md_deepfile.specs.Bytes.{file_bytes, file_bytes1};
ghost use Rattle.md_deepfile.specs.Format.{Damage};
ghost use Rattle.md_deepfile.specs.Spells.{IsDamaged, Spells};
ghost use Rattle.law_damage.specs.Damage.{IsFirstDamage, KeepsAllRules};
ghost use Rattle.law_damage.specs.Fields.{fields, laid};
ghost use Rattle.law_damage.specs.Rows.{rows_of};

/// What a reader of bytes finds wrong with them is the first rule that they break by the fields of a list of rows, which need not be
/// valid, at its place: it finds every such damage, and no other.
pub fn damages_are_first_broken_rules()
    ensures { (bytes : List ℕ) (d : Damage) → All (λ b. b < 256) bytes → IsDamaged bytes d ↔ IsFirstDamage bytes d }
{}

/// Bytes keep all rules or break one first, at one place, and never both.
pub fn files_keep_all_rules_or_break_one_first()
    ensures either { (bytes : List ℕ) → All (λ b. b < 256) bytes → KeepsAllRules bytes ⊎ ((d : Damage) × IsFirstDamage bytes d) }
    ensures one { (bytes : List ℕ) (d e : Damage) → IsFirstDamage bytes d → IsFirstDamage bytes e → d ≡ e }
    ensures never_both { (bytes : List ℕ) (d : Damage) → KeepsAllRules bytes → IsFirstDamage bytes d → ⊥ }
{}

/// The bytes of a profile are those of its rows, field by field, in either version.
pub fn profiles_are_written_in_fields()
    ensures newer { (f : ProfileRows) → file_bytes f ≡ laid (fields (rows_of 50 f)) }
    ensures older { (f : ProfileRows) → file_bytes1 f ≡ laid (fields (rows_of 49 f)) }
{}

/// Bytes spell a profile exactly where rows that keep all rules are written so.
pub fn profiles_are_rows_that_keep_the_rules()
    ensures { (bytes : List ℕ) → All (λ b. b < 256) bytes → ((f : ProfileRows) × Spells bytes f) ↔ KeepsAllRules bytes }
{}
