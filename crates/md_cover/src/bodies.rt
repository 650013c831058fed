// The numbers of the bodies of procedures.
ghost use Rattle.std.specs.Prelude.{◌≡◌};
ghost use Rattle.md_hlds.specs.Hlds.{hlds_of, body_number};

use md_base::ProcId;
use md_modes::Moded;

/// The number of a procedure's body: how many goals stand in the clauses before it.
pub(crate) fn body_number(moded: &Moded, id: ProcId) -> u32
    ensures { result ≡ body_number (hlds_of moded.now) id }
{
    let before = moded.program().preds.len().min(id.number() as usize);
    let mut number = 0;
    for _clause in 0..before {
        number = moded.after(number);
    }
    number
}
