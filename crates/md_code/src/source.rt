// A program, and what its names stand for.
ghost use Rattle.std.specs.Prelude.{◌≡◌};

use md_det::Checked;
use md_names::Names;

/// A program that the checks accept, with its names.
#[derive(Drop)]
pub struct Source<'a> {
    pub checked: &'a Checked,
    pub names: Names<'a>,
    pub ghost named: { names ≡ checked.now },
}
