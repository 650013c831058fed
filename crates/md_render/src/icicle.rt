// The picture of a flame graph.
ghost use Rattle.std.specs.Prelude.{◌≡◌, ◌<◌, ◌≤◌, ◌+◌, ◌*◌, ◌^◌, ◌++◌, All, codes, decimal, OnOk};
ghost use Rattle.std.specs.List.{flat_map};
ghost use Rattle.md_clique.specs.Cliques.{clique_count};
ghost use Rattle.md_cost.specs.FileView.{IsFileView};
ghost use Rattle.md_cost.specs.View.{View};
ghost use Rattle.md_people.specs.Counts.{whole_of};
ghost use Rattle.md_render.specs.Icicle.{box_words, cost_of, cost_words, drawn_of, drawn_words, edge_words, held_words, icicle_words, label_words, letters_in, levels_of, part_words, rect_words, svg_words, tip_words};

use crate::number::{add, add_more, add_number};
use crate::title::measure_word;
use md_base::{Measure, NoMemory};
use md_cost::Loaded;
use md_people::whole_of;
use md_table::{add_escaped, add_share};
use md_tree::{CliqueBox, clique_own, shown_cliques, where_words};
use std::alloc::{AllocError, Global};

/// How many boxes are drawn.
const MOST_BOXES: usize = 10_000;

/// What a clique costs: its total and its own counts of a measure, whose whole is this.
#[derive(Clone, Copy)]
pub(crate) struct Cost {
    pub by: Measure,
    pub total: u64,
    pub whole: u64,
    pub own: u128,
}

/// Adds the picture of the cliques that have a row in the tree.
pub(crate) fn add_icicle(
    out: &mut Vec<u8>,
    loaded: &Loaded,
    by: Measure,
    least: u32,
) -> Result<(), NoMemory>
    ensures { (v : View) → IsFileView loaded.now.profile v → OnOk result (out.new.items ≡ out.old.items ++ icicle_words v by least) }
{
    let alloc: Global = *out.allocator();
    let boxes = shown_cliques(alloc, loaded, by, least)?;
    add_drawn(out, loaded, by, &boxes)
}

/// Adds the first of these boxes, and how many more there are.
fn add_drawn(
    out: &mut Vec<u8>,
    loaded: &Loaded,
    by: Measure,
    boxes: &[CliqueBox],
) -> Result<(), NoMemory>
    requires there { All (λ b. b.clique < clique_count loaded.now.cliques) boxes.now }
    ensures { (v : View) → IsFileView loaded.now.profile v → OnOk result (out.new.items ≡ out.old.items ++ drawn_of v by boxes.now) }
{
    let shown = boxes.len().min(MOST_BOXES);
    add_svg(out, loaded, by, &boxes[..shown])?;
    add_more(out, (boxes.len() - shown) as u128)?;
    Ok(())
}

/// Adds a picture of these boxes.
fn add_svg(
    out: &mut Vec<u8>,
    loaded: &Loaded,
    by: Measure,
    boxes: &[CliqueBox],
) -> Result<(), NoMemory>
    requires there { All (λ b. b.clique < clique_count loaded.now.cliques) boxes.now }
    ensures { (v : View) → IsFileView loaded.now.profile v → OnOk result (out.new.items ≡ out.old.items ++ svg_words v by boxes.now) }
{
    add_number(
        out,
        b"<figure><svg viewBox=\"0 0 1000 ",
        20 * levels_of(boxes),
    )?;
    add(out, b"\">\n")?;
    add_boxes(out, loaded, by, boxes)?;
    add(out, b"</svg></figure>\n")?;
    Ok(())
}

/// How many levels have boxes.
fn levels_of(boxes: &[CliqueBox]) -> u64
    ensures levels { result ≡ levels_of boxes.now }
    ensures small { result ≤ 2 ^ 32 }
{
    let mut levels = 0;
    for it in boxes {
        levels = levels.max(it.level as u64 + 1);
    }
    levels
}

/// Adds each box.
fn add_boxes(
    out: &mut Vec<u8>,
    loaded: &Loaded,
    by: Measure,
    boxes: &[CliqueBox],
) -> Result<(), NoMemory>
    requires there { All (λ b. b.clique < clique_count loaded.now.cliques) boxes.now }
    ensures { (v : View) → IsFileView loaded.now.profile v → OnOk result (out.new.items ≡ out.old.items ++ flat_map (box_words v by) boxes.now) }
{
    let whole = whole_of(loaded, by);
    for it in boxes {
        add_box(out, loaded, by, whole, *it)?;
    }
    Ok(())
}

/// Adds the box of a clique, which is an anchor.
fn add_box(
    out: &mut Vec<u8>,
    loaded: &Loaded,
    by: Measure,
    whole: u64,
    it: CliqueBox,
) -> Result<(), NoMemory>
    requires there { it.clique < clique_count loaded.now.cliques }
    requires whole { (v : View) → IsFileView loaded.now.profile v → whole ≡ whole_of v by }
    ensures { (v : View) → IsFileView loaded.now.profile v → OnOk result (out.new.items ≡ out.old.items ++ box_words v by it) }
{
    let alloc: Global = *out.allocator();
    let text = where_words(alloc, loaded, it.clique)?;
    add_anchor(out, it, &text, cost_of(loaded, by, whole, it.clique))
}

/// What a clique costs.
fn cost_of(loaded: &Loaded, by: Measure, whole: u64, clique: u32) -> Cost
    requires there { clique < clique_count loaded.now.cliques }
    requires whole { (v : View) → IsFileView loaded.now.profile v → whole ≡ whole_of v by }
    ensures { (v : View) → IsFileView loaded.now.profile v → result ≡ cost_of v by clique }
{
    let total = loaded.clique_total(clique).of(by);
    let own = clique_own(loaded, by, clique);
    Cost {
        by,
        total,
        whole,
        own,
    }
}

/// Adds a box with this text and this cost.
fn add_anchor(out: &mut Vec<u8>, it: CliqueBox, text: &[u8], cost: Cost) -> Result<(), NoMemory>
    ensures { OnOk result (out.new.items ≡ out.old.items ++ drawn_words it text.now cost) }
{
    add_number(out, b"<a href=\"/clique?id=", it.clique as u64)?;
    add_tip(out, text, cost)?;
    add_rect(out, it)?;
    add_label(out, it, text)?;
    add(out, b"</a>\n")?;
    Ok(())
}

/// Adds where a clique is and what it costs, as a browser tells it at the box.
fn add_tip(out: &mut Vec<u8>, text: &[u8], cost: Cost) -> Result<(), NoMemory>
    ensures { OnOk result (out.new.items ≡ out.old.items ++ tip_words text.now cost) }
{
    add(out, b"\"><title>")?;
    add_escaped(out, text)?;
    add_cost(out, cost)?;
    add(out, b"</title>")?;
    Ok(())
}

fn add_cost(out: &mut Vec<u8>, cost: Cost) -> Result<(), NoMemory>
    ensures { OnOk result (out.new.items ≡ out.old.items ++ cost_words cost) }
{
    add_number(out, b": ", cost.total)?;
    add(out, b" ")?;
    add(out, measure_word(cost.by))?;
    add_part(out, cost)
}

/// Adds the share of a total in the whole, and the own counts.
fn add_part(out: &mut Vec<u8>, cost: Cost) -> Result<(), NoMemory>
    ensures { OnOk result (out.new.items ≡ out.old.items ++ part_words cost) }
{
    add(out, b", ")?;
    add_share(out, cost.total as u128, cost.whole)?;
    add(out, b" %, own ")?;
    md_table::add_number(out, cost.own)?;
    Ok(())
}

/// Adds the rectangle of a box.
fn add_rect(out: &mut Vec<u8>, it: CliqueBox) -> Result<(), AllocError>
    ensures { OnOk result (out.new.items ≡ out.old.items ++ rect_words it) }
{
    add_edge(out, b"<rect x=\"", it.left as u64)?;
    add_number(out, b"\" y=\"", 20 * it.level as u64)?;
    add_edge(out, b"\" width=\"", it.width as u64)?;
    add(out, b"\" height=\"19\"/>")
}

/// Adds as much of a text as a box holds.
fn add_label(out: &mut Vec<u8>, it: CliqueBox, text: &[u8]) -> Result<(), AllocError>
    ensures { OnOk result (out.new.items ≡ out.old.items ++ label_words it text.now) }
{
    let letters = letters_in(it.width);
    if letters == 0 {
        return Ok(());
    }
    add_held(out, it, &text[..letters.min(text.len())])
}

/// How many letters a box of this width, in millionths of the whole, holds.
fn letters_in(width: u32) -> usize
    ensures { result ≡ letters_in width }
{
    (width.saturating_sub(2000) / 7300) as usize
}

/// Adds a text within a box.
fn add_held(out: &mut Vec<u8>, it: CliqueBox, text: &[u8]) -> Result<(), AllocError>
    ensures { OnOk result (out.new.items ≡ out.old.items ++ held_words it text.now) }
{
    add_edge(out, b"<text x=\"", it.left as u64 + 2000)?;
    add_number(out, b"\" y=\"", 20 * it.level as u64 + 14)?;
    add(out, b"\">")?;
    add_escaped(out, text)?;
    add(out, b"</text>")
}

/// Adds words, and millionths of the whole as the picture measures them.
fn add_edge(out: &mut Vec<u8>, words: &[u8], millionths: u64) -> Result<(), AllocError>
    ensures { OnOk result (out.new.items ≡ out.old.items ++ (words.now ++ edge_words millionths)) }
{
    add_number(out, words, millionths / 1000)?;
    add_number(out, b".", millionths / 100 % 10)?;
    add_number(out, b"", millionths / 10 % 10)?;
    add_number(out, b"", millionths % 10)
}
