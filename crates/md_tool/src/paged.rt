// The page of a loaded profile.
ghost use Rattle.std.specs.Prelude.{◌≡◌, MatchResult};
ghost use Rattle.md_base.specs.Outside.{Rose};
ghost use Rattle.md_cost.specs.FileView.{IsFileView};
ghost use Rattle.md_query.specs.Told.{asked};
ghost use Rattle.md_tool.specs.Paged.{PageEnds, IsPageOf, PageFails};
ghost use Rattle.md_tool.specs.Rises.{RisesBy};

use crate::fault::Fault;
use crate::write::write;
use md_base::Sink;
use md_cost::Loaded;
use md_query::{Page, PageFault, Query, page};
use md_render::text;
use std::alloc::Global;

/// Writes the page that is asked for, where the profile has it.
pub fn write_page<O: Sink>(
    alloc: Global,
    loaded: &Loaded,
    query: &Query,
    out: &mut O,
) -> Result<(), Fault>
    ensures ends { PageEnds (IsFileView loaded.now.profile) (asked query.now) (O.held out.old) (O.held out.new) (Rose (O.write_faults out.old) (O.write_faults out.new)) result }
    ensures outs { RisesBy Fault.Write (O.write_faults out.old) (O.write_faults out.new) result }
{
    let _viewed = loaded.profile();
    let page = find_page(alloc, loaded, query)?;
    match text(alloc, loaded, &page) {
        Ok(text) => write(out, &text),
        Err(_) => Err(Fault::NoMemory),
    }
}

/// The page that is asked for.
fn find_page(alloc: Global, loaded: &Loaded, query: &Query) -> Result<Page, Fault>
    ensures { MatchResult result (IsPageOf loaded.now.profile (asked query.now)) (PageFails loaded.now.profile (asked query.now)) }
{
    match page(alloc, loaded, query) {
        Ok(page) => Ok(page),
        Err(PageFault::NoSuchPage) => Err(Fault::NoSuchPage),
        Err(PageFault::NoMemory) => Err(Fault::NoMemory),
    }
}
