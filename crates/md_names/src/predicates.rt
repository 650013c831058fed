// Predicates by their names.
ghost use Rattle.std.specs.Prelude.{◌≡◌, IfOk};
ghost use Rattle.md_hlds.specs.Hlds.{procedures_of};
ghost use Rattle.md_names.specs.Maps.{slice_now, ArePredicates};

use crate::key::PredicateKey;
use indexmap::IndexMap;
use md_base::{Name, NoMemory};
use md_hlds::{Pred, Program};
use std::alloc::Global;

/// The first predicate of each name, with its number.
pub fn predicates_of<'a>(
    alloc: Global,
    program: &'a Program,
) -> Result<IndexMap<PredicateKey<'a>, (u32, &'a Pred)>, NoMemory>
    ensures { IfOk result (λ predicates. ArePredicates predicates (procedures_of program.now.preds.items)) }
{
    let mut predicates = IndexMap::new(alloc);
    for number in (0..program.preds.len()).rev() {
        let pred = &program.preds[number];
        let key = key_of(&pred.qualifier, &pred.name);
        predicates.insert(key, (number as u32, pred))?;
    }
    Ok(predicates)
}

/// A name as a key.
pub fn key_of<'a>(qualifier: &'a Option<Name>, name: &'a Name) -> PredicateKey<'a>
    ensures qualifier { slice_now result.qualifier ≡ qualifier.now }
    ensures name { result.name.now ≡ name.now }
{
    PredicateKey {
        qualifier: qualifier.as_ref().map(|module| module.as_bytes()),
        name: name.as_bytes(),
    }
}
