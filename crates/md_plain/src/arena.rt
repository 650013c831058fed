// What is kept in the arena of a run.
ghost use Rattle.std.specs.Prelude.{◌≡◌, ◌∷◌, IfOk};

use bumpalo::Bump;
use bumpalo::collections::into_bump_slice;
use md_base::NoMemory;

/// A value in the arena.
pub fn keep<'a, T: Copy + Drop>(bump: &'a Bump, value: T) -> Result<&'a T, NoMemory>
    ensures { IfOk result (λ kept. kept.now ≡ value) }
{
    Ok(bump.try_alloc(value)?)
}

/// A list in the arena: this element, and then those of another list.
pub fn cons<'a, T: Copy + Drop>(bump: &'a Bump, first: T, rest: &[T]) -> Result<&'a [T], NoMemory>
    ensures { IfOk result (λ list. list.now ≡ first ∷ rest.now) }
{
    let mut list = Vec::new(bump);
    list.push(first)?;
    list.extend_from_slice(rest)?;
    Ok(into_bump_slice(list))
}
