// What the determinism checks find at each goal.
use crate::fault::Fault;
use md_det::Checked;

/// Adds the number of `main`, how many predicates and types a program has and whether it throws, and the switch and the pair
/// of each goal by its number, up to the first number that is no goal's.
pub fn determinisms(checked: &Checked, found: &mut String) -> Result<(), Fault> {
    let main = checked.main();
    let preds = checked.program().preds.len();
    let types = checked.moded().program().types.len();
    let throws = checked.throws();
    writeln!(
        found,
        "main {main:?}, predicates {preds}, types {types}, throws {throws}"
    )?;
    for number in 0..u32::MAX {
        let switch = checked.switch(number);
        let pair = checked.pair(number);
        writeln!(found, "{number}: {switch:?} {pair:?}")?;
        if pair.is_none() {
            return Ok(());
        }
    }
    Ok(())
}
