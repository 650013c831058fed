// The predicate with which a run begins.
ghost use Rattle.std.specs.Prelude.{◌≡◌, ◌&&◌};
ghost use Rattle.md_hlds.specs.Hlds.{procedures_of, procedure_of, args_of, hlds_type_of};
ghost use Rattle.md_inst.specs.HldsTypes.{is_world};
ghost use Rattle.md_modes.specs.Modes as spec;

use md_hlds::{Det, Mode, Pred, Ty};
use md_inst::{Kind, same_det};

/// Whether a predicate `main(io::di, io::uo) is det` is declared.
pub fn has_main(preds: &[Pred]) -> bool
    ensures { result ≡ spec.has_main (procedures_of preds.now) }
{
    for pred in preds {
        if is_main(pred) {
            return true;
        }
    }
    false
}

/// Whether a predicate is declared as `main(io::di, io::uo) is det`.
pub fn is_main(pred: &Pred) -> bool
    ensures { result ≡ spec.is_main (procedure_of pred.now) }
{
    pred.qualifier.is_none()
        && pred.name.as_bytes() == b"main".as_slice()
        && are_main_args(pred.args.as_slice())
        && same_det(pred.det, Det::Det)
}

/// Whether these are the io state before and after.
fn are_main_args(args: &[(Ty, Mode)]) -> bool
    ensures { result ≡ spec.are_main_args (args_of args.now) }
{
    match args {
        [] => false,
        [first, rest @ ..] => match rest {
            [] => false,
            [second, more @ ..] => match more {
                [] => is_before(first) && is_after(second),
                [_, ..] => false,
            },
        },
    }
}

fn is_before(arg: &(Ty, Mode)) -> bool
    ensures { result ≡ (is_world (hlds_type_of arg.now.0) && spec.is_di arg.now.1) }
{
    Kind::new(&arg.0).is_world() && matches!(arg.1, Mode::Di)
}

fn is_after(arg: &(Ty, Mode)) -> bool
    ensures { result ≡ (is_world (hlds_type_of arg.now.0) && spec.is_uo arg.now.1) }
{
    Kind::new(&arg.0).is_world() && matches!(arg.1, Mode::Uo)
}
