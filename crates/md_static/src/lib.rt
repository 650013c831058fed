//! What a program's text fixes of its profile: modules, procedures and call sites, by number (the ProcStatics and
//! CallSiteStatics of Conway and Somogyi 2001).
#![tactic(auto)]

mod entry;
mod sound;
mod tables;

pub use entry::{Proc, Site, SiteKind};
pub use sound::is_sound;
pub use tables::Statics;
