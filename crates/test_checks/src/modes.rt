// What the mode checks find at each goal.
use crate::fault::Fault;
use md_modes::Moded;

/// Adds how many predicates a program has, and what is found at each goal by its number, up to the first number that is no
/// goal's.
pub fn modes(moded: &Moded, found: &mut String) -> Result<(), Fault> {
    let count = moded.program().preds.len();
    writeln!(found, "predicates: {count}")?;
    for number in 0..u32::MAX {
        goal(moded, number, found)?;
        if moded.size(number) == 0 {
            return Ok(());
        }
    }
    Ok(())
}

/// Adds what the name in a goal stands for, how many goals it has, the variables that it binds and whether one of them occurs
/// outside it, whether it names an io state, and what it does as a unification or a call of a closure.
fn goal(moded: &Moded, number: u32, found: &mut String) -> Result<(), Fault> {
    let named = moded.named(number);
    let size = moded.size(number);
    let binds = moded.binds(number);
    let outside = moded.binds_outside(number);
    let io = moded.names_io(number);
    writeln!(
        found,
        "{number}: {named:?}, size {size}, binds {binds:?}, outside {outside}, io {io}"
    )?;
    match moded.class(number) {
        None => Ok(()),
        Some(class) => Ok(writeln!(found, "{number}: {class:?}")?),
    }
}
