// The picture of the cliques as a tree.
ghost use Rattle.std.specs.Prelude.{◌≡◌, ◌<◌, ◌+◌, ◌^◌, ◌++◌, ◌∷◌, All, None, IfOk, OnOk, length, reverse};
ghost use Rattle.std.specs.List.Sorted.{IsNonDecreasingBy};
ghost use Rattle.md_clique.specs.Cliques.{clique_count};
ghost use Rattle.md_cost.specs.FileView.{IsFileView};
ghost use Rattle.md_cost.specs.View.{View};
ghost use Rattle.md_people.specs.Counts.{whole_of};
ghost use Rattle.md_tree.specs.Children.{AreChildren, AreChildrenOf};
ghost use Rattle.md_tree.specs.Picture.{boxes_from, millionths, picture};
ghost use Rattle.md_tree.specs.Rests.{HasAllOf};
ghost use Rattle.md_tree.specs.Twigs.{Fits, IsTwig, all_work, open_boxes, past_box, twig_work};

use crate::child::{Child, children_of};
use crate::rest::{Rest, next_child, past, rest_below};
use crate::row::is_shown;
use crate::scale::{Scale, scale_of};
use md_base::{Measure, NoMemory};
use md_cost::Loaded;
use std::alloc::Global;

/// How wide the box of clique 0 is.
const WHOLE: u32 = 1_000_000;

/// The box of a clique: how far it is from clique 0, the place of its parent's box in the list, its left edge and its width, both in
/// millionths of the width of clique 0's box.
#[derive(Clone, Copy)]
pub struct CliqueBox {
    pub clique: u32,
    pub level: u32,
    pub parent: Option<usize>,
    pub left: u32,
    pub width: u32,
}

/// The children of a clique that are still to be looked at, at their level: the place of the clique's box, and where the next child's
/// box begins.
#[derive(Clone, Copy)]
pub(crate) struct Twig {
    pub rest: Rest,
    pub level: u32,
    pub place: usize,
    pub left: u32,
}

/// The boxes of the cliques that have a row in the tree of the same measure and thousandths, in the order of the rows: each as wide
/// as its total in millionths of the whole, children from left to right in their parent's box. There are none where the whole is 0.
/// Takes O(C log C) steps for C cliques, beside one for each context, and a stack of its own, however deep the tree.
pub fn shown_cliques(
    alloc: Global,
    loaded: &Loaded,
    by: Measure,
    least: u32,
) -> Result<Vec<CliqueBox>, NoMemory>
    ensures boxes { IfOk result (λ boxes. (v : View) → IsFileView loaded.now.profile v → boxes.items ≡ picture v by least) }
    ensures there { IfOk result (λ boxes. All (λ b. b.clique < clique_count loaded.now.cliques) boxes.items) }
{
    // it is valid and has a view, which `profile` says
    let _profile = loaded.profile();
    let scale = scale_of(loaded, by, least);
    if scale.whole == 0 {
        return Ok(Vec::new(alloc));
    }
    let children = children_of(alloc, loaded, by)?;
    let boxes = boxes_of(alloc, loaded, scale, &children)?;
    Ok(boxes)
}

/// The boxes of all cliques that have a row.
fn boxes_of(
    alloc: Global,
    loaded: &Loaded,
    scale: Scale,
    children: &[Child],
) -> Result<Vec<CliqueBox>, NoMemory>
    requires some { 0 < scale.whole }
    requires whole { (v : View) → IsFileView loaded.now.profile v → scale.whole ≡ whole_of v scale.by }
    requires children { AreChildren (clique_count loaded.now.cliques) children.now }
    requires view { (v : View) → IsFileView loaded.now.profile v → AreChildrenOf v scale.by children.now }
    ensures { IfOk result (λ boxes. (v : View) → IsFileView loaded.now.profile v → boxes.items ≡ boxes_from v scale.by scale.least (clique_count v.cliques) 0 None 0 0 0) }
{
    // it is valid and has a tree, which `profile` says
    let _profile = loaded.profile();
    let mut boxes = Vec::new(alloc);
    let mut twigs = Vec::new(alloc);
    boxes.push(CliqueBox {
        clique: 0,
        level: 0,
        parent: None,
        left: 0,
        width: WHOLE,
    })?;
    twigs.push(twig_below(children, 0, 1, 0, 0))?;
    while let Some(twig) = twigs.pop() {
        grow(&mut boxes, &mut twigs, loaded, scale, children, twig)?;
    }
    Ok(boxes)
}

/// All children of a clique, at this level, whose box has this place and this left edge.
fn twig_below(children: &[Child], parent: u32, level: u32, place: usize, left: u32) -> Twig
    requires by_parent { IsNonDecreasingBy (λ c. c.0) children.now }
    ensures rest { HasAllOf children.now parent result.rest }
    ensures twig { result ≡ record { rest = result.rest; level = level; place = place; left = left } }
{
    Twig {
        rest: rest_below(children, parent),
        level,
        place,
        left,
    }
}

/// Goes on in a twig: by the box of its next child and a twig below that, or past a child that has no box.
fn grow(
    boxes: &mut Vec<CliqueBox>,
    twigs: &mut Vec<Twig>,
    loaded: &Loaded,
    scale: Scale,
    children: &[Child],
    twig: Twig,
) -> Result<(), NoMemory>
    requires some { 0 < scale.whole }
    requires whole { (v : View) → IsFileView loaded.now.profile v → scale.whole ≡ whole_of v scale.by }
    requires children { AreChildren (clique_count loaded.now.cliques) children.now }
    requires view { (v : View) → IsFileView loaded.now.profile v → AreChildrenOf v scale.by children.now }
    requires twig { IsTwig (clique_count loaded.now.cliques) children.now twig }
    requires twigs { All (IsTwig (clique_count loaded.now.cliques) children.now) twigs.old.items }
    requires fits { (v : View) → IsFileView loaded.now.profile v → Fits v scale.by scale.least children.now twig }
    requires all_fit { (v : View) → IsFileView loaded.now.profile v → All (Fits v scale.by scale.least children.now) twigs.old.items }
    ensures boxes { (v : View) → IsFileView loaded.now.profile v → OnOk result (boxes.new.items ++ open_boxes v scale.by scale.least children.now (length boxes.new.items) (reverse twigs.new.items) ≡ boxes.old.items ++ open_boxes v scale.by scale.least children.now (length boxes.old.items) (twig ∷ reverse twigs.old.items)) }
    ensures twigs { OnOk result (All (IsTwig (clique_count loaded.now.cliques) children.now) twigs.new.items) }
    ensures fit { (v : View) → IsFileView loaded.now.profile v → OnOk result (All (Fits v scale.by scale.least children.now) twigs.new.items) }
    ensures work { OnOk result (all_work children.now (clique_count loaded.now.cliques) twigs.new.items < twig_work children.now (clique_count loaded.now.cliques) twig + all_work children.now (clique_count loaded.now.cliques) twigs.old.items) }
{
    // it is valid and has a view, which `profile` says
    let _profile = loaded.profile();
    let Some((_parent, total, clique)) = next_child(children, twig.rest) else {
        return Ok(());
    };
    if !is_shown(scale, total.0) {
        twigs.push(past_hidden(twig))?;
        return Ok(());
    }
    let place = boxes.len();
    let width = millionths(total.0, scale.whole);
    boxes.push(CliqueBox {
        clique,
        level: twig.level,
        parent: Some(twig.place),
        left: twig.left,
        width,
    })?;
    twigs.push(past_box(twig, width))?;
    twigs.push(twig_below(children, clique, twig.level + 1, place, twig.left))?;
    Ok(())
}

/// A part of the whole in millionths of it, rounded down.
fn millionths(part: u64, whole: u64) -> u32
    requires some { 0 < whole }
    requires fits { millionths part whole < 2 ^ 32 }
    ensures { result ≡ millionths part whole }
{
    (WHOLE as u128 * part as u128 / whole as u128) as u32
}

/// The twig past a child whose box has this width.
fn past_box(twig: Twig, width: u32) -> Twig
    requires place { twig.rest.place + 1 < 2 ^ 64 }
    requires left { twig.left + width < 2 ^ 32 }
    ensures { result ≡ past_box twig width }
{
    Twig {
        rest: past(twig.rest),
        left: twig.left + width,
        ..twig
    }
}

/// The twig past a child that has no box.
fn past_hidden(twig: Twig) -> Twig
    requires { twig.rest.place + 1 < 2 ^ 64 }
    ensures { result ≡ past_box twig 0 }
{
    Twig {
        rest: past(twig.rest),
        ..twig
    }
}
