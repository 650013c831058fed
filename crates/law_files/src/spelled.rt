// What a file and a text may spell. Each law is the contract of a function that does nothing.
ghost use Rattle.std.specs.Prelude.{ℕ, ◌≡◌, ◌⊎◌, ◌<◌, All, List};
ghost use Rattle.md_dynamic.specs.Profile.{ProfileRows};
ghost use Rattle.md_dynamic.specs.Valid.{IsValid};
ghost use Rattle.md_deepfile.specs.Bytes.{file_bytes, file_bytes1};
ghost use Rattle.md_deepfile.specs.Format.{Damage};
ghost use Rattle.md_deepfile.specs.Spells.{HasRoom, Spells};
ghost use Rattle.md_dump.specs.Spells as text;
ghost use Rattle.md_dump.specs.Text.{dump_text};
ghost use Rattle.law_files.specs.Spelled.{AreDamaged, AreWhole, IsFaulty, IsWhole};

/// A file spells at most one profile, whichever of the two forms it has.
pub fn files_spell_one_profile()
    ensures { (bytes : List ℕ) (f g : ProfileRows) → Spells bytes f → Spells bytes g → f ≡ g }
{}

/// So does a text.
pub fn texts_spell_one_profile()
    ensures { (words : List ℕ) (f g : ProfileRows) → text.Spells words f → text.Spells words g → f ≡ g }
{}

/// A file either spells one profile, and then nothing is wrong with it; or it spells none, and then exactly one rule is
/// the first that it breaks, at one place.
pub fn files_are_whole_or_damaged()
    ensures { (bytes : List ℕ) → All (λ b. b < 256) bytes → ((f : ProfileRows) × AreWhole bytes f) ⊎ ((d : Damage) × AreDamaged bytes d) }
{}

/// A text either spells one profile, and then none of its lines is at fault; or it spells none, and then exactly one line
/// is the first at fault.
pub fn texts_are_whole_or_faulty()
    ensures { (words : List ℕ) → ((f : ProfileRows) × IsWhole words f) ⊎ ((line : ℕ) × IsFaulty words line) }
{}

/// What is written of a valid profile whose numbers have room in a file is read as that profile and as no other: its
/// newer form, and its older one where no link has an exception.
pub fn encoded_profiles_are_spelled()
    ensures newer { (f : ProfileRows) → IsValid f → HasRoom f → AreWhole (file_bytes f) f }
    ensures older { (f : ProfileRows) → IsValid f → HasRoom f → All (λ l. l.own.excps ≡ 0) f.links → AreWhole (file_bytes1 f) f }
{}

/// The same of the text that is written of it.
pub fn dumped_profiles_are_spelled()
    ensures { (f : ProfileRows) → IsValid f → HasRoom f → IsWhole (dump_text f) f }
{}
