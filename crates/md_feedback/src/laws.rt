// Laws of feedbacks and their texts. Each is the contract of a function that does nothing.
ghost use Rattle.std.specs.Prelude.{ℕ, ◌≡◌, List};
ghost use Rattle.md_hlds.specs.Hlds.{Hlds};
ghost use Rattle.md_static.specs.Tables as tables;
ghost use Rattle.law_events.specs.Table as events;
ghost use Rattle.md_feedback.specs.declared.pairs.Feedback.{Feedback};
ghost use Rattle.md_feedback.specs.Search.{HasSitesOf};
ghost use Rattle.md_feedback.specs.Text.{IsFaultAt, IsValid, Spells, feedback_text};

/// A text spells no more than one feedback. So the text of a valid one, which `write_feedback` gives, is read back as it.
pub fn a_text_spells_one_feedback()
    ensures one { (text : List ℕ) (f g : Feedback) → Spells text f → Spells text g → f ≡ g }
    ensures own { (f g : Feedback) → IsValid f → Spells (feedback_text f) g → g ≡ f }
{}

/// A text with a line at fault spells none.
pub fn a_text_at_fault_spells_nothing()
    ensures { (text : List ℕ) (line : ℕ) (f : Feedback) → IsFaultAt text line → Spells text f → ⊥ }
{}

/// A text has no more than one line at fault: the first one.
pub fn a_text_has_one_line_at_fault()
    ensures { (text : List ℕ) (line other : ℕ) → IsFaultAt text line → IsFaultAt text other → line ≡ other }
{}

/// Tables that give the site table of a program, whose goals name its sites, have its sites as `feedback` asks.
pub fn a_site_table_has_the_sites()
    ensures { (program : Hlds) (statics : tables.Static) (main : ℕ) → events.HasSites program → tables.site_table statics main ≡ events.site_table program → HasSitesOf program statics }
{}
