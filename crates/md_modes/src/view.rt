// What is known of the variables of one goal.
ghost use Rattle.std.specs.Prelude.{◌≡◌, length, IfOk};
ghost use Rattle.md_inst.specs.Kinds.{inst_map_of};
ghost use Rattle.md_modes.specs.Views.{seen, put_all};

use md_base::NoMemory;
use md_inst::{Inst, inst_at, set_inst};
use std::alloc::Global;

/// What is known of these variables.
pub fn seen<'a>(
    alloc: Global,
    places: &[u32],
    insts: &[Inst<'a>],
) -> Result<Vec<Inst<'a>>, NoMemory>
    ensures known { IfOk result (λ view. inst_map_of view.items ≡ seen places.now (inst_map_of insts.now)) }
    ensures all { IfOk result (λ view. length view.items ≡ length places.now) }
{
    let mut view = Vec::with_capacity(alloc, places.len())?;
    for place in places {
        view.push(inst_at(insts, *place))?;
    }
    Ok(view)
}

/// Makes what is known of these variables what a view of them has.
#[inline(never)]
pub fn put_all<'a>(insts: &mut Vec<Inst<'a>>, places: &[u32], view: &[Inst<'a>])
    ensures { inst_map_of insts.new.items ≡ put_all places.now (inst_map_of view.now) (inst_map_of insts.old.items) }
{
    for number in 0..places.len() {
        if number < view.len() {
            set_inst(insts, places[number], view[number]);
        }
    }
}
