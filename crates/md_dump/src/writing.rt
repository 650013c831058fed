// A profile as text.
ghost use Rattle.std.specs.Prelude.{◌≡◌, ◌++◌, ◌∷◌, IfOk, OnOk};
ghost use Rattle.md_dynamic.specs.Valid.{IsValid};
ghost use Rattle.md_dump.specs.Text.{line, title_words, finished_words, dump_text};

use crate::told::put_each;
use md_base::NoMemory;
use md_dynamic::Profile;
use std::alloc::{AllocError, Global};

/// The text of a profile, which is valid.
pub fn dump(alloc: Global, profile: &Profile) -> Result<Vec<u8>, NoMemory>
    requires { IsValid profile.now }
    ensures { IfOk result (λ text. text.items ≡ dump_text profile.now) }
{
    let mut out = Vec::new(alloc);
    put_front(&mut out, profile.finished())?;
    put_each(&mut out, b"modules", profile.statics().modules())?;
    put_each(&mut out, b"procs", profile.statics().procs())?;
    put_each(&mut out, b"sites", profile.statics().sites())?;
    put_each(&mut out, b"contexts", profile.nodes())?;
    put_each(&mut out, b"links", profile.links())?;
    Ok(out)
}

/// Puts the title and whether the run was finished.
fn put_front(out: &mut Vec<u8>, finished: bool) -> Result<(), AllocError>
    ensures { OnOk result (out.new.items ≡ out.old.items ++ (line title_words ++ line (finished_words finished))) }
{
    out.extend_from_slice(b"mdprof dump 2\nfinished ")?;
    let word: &[u8] = if finished { b"yes\n" } else { b"no\n" };
    out.extend_from_slice(word)
}
