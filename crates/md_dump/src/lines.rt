// The lines of a text, one after the other.
ghost use Rattle.std.specs.Prelude.{◌≡◌, ◌<◌, ◌+◌, ◌-◌, List, ℕ, length, IfOk, IfErr, IfSome, IfNone, OnOk};
ghost use Rattle.md_dynamic.specs.Profile.{ProfileRows};
ghost use Rattle.md_dump.specs.Due.{Due, done, line, whole};
ghost use Rattle.md_dump.specs.Left.{read_on};
ghost use Rattle.md_dump.specs.Follows.{IsFault, IsShort};

use crate::cut::cut;
use crate::fault::DumpFault;

/// Reads the lines of a text, each of which LF ends.
#[derive(Drop)]
pub(crate) struct Lines<'a> {
    /// What wasn't read yet.
    pub(crate) rest: &'a [u8],
    /// How many lines were read.
    pub(crate) before: u32,
}

impl<'a> Lines<'a> {
    /// At the first line of a text.
    pub(crate) fn new(text: &'a [u8]) -> Lines<'a>
        requires { length text.now < 4294967295 }
        ensures start { result.before ≡ 0 }
        ensures rest { result.rest.now ≡ text.now }
        ensures short { IsShort result }
    {
        Lines {
            rest: text,
            before: 0,
        }
    }

    /// The next line, without its LF.
    pub(crate) fn next(&mut self) -> Result<&'a [u8], DumpFault>
        requires { IsShort self.old }
        ensures line { IfOk result (λ l. (next : List ℕ → Due) → read_on (line next) self.old ≡ read_on (next l.now) self.new) }
        ensures fault { IfErr result (λ fault. (next : List ℕ → Due) → IsFault fault (read_on (line next) self.old)) }
        ensures short { OnOk result (IsShort self.new) }
    {
        let Some((line, after)) = cut(self.rest, b'\n') else {
            return Err(DumpFault::Line(self.before + 1));
        };
        self.rest = after;
        self.before += 1;
        Ok(line)
    }

    /// The line that was read last is at fault.
    pub(crate) fn fault(&self) -> DumpFault
        ensures { result ≡ DumpFault.Line self.now.before }
    {
        DumpFault::Line(self.before)
    }

    /// Whether the text ends here.
    #[tactic(auto, using(crate::proofs::Steps::past_end))]
    pub(crate) fn end(&self) -> Result<(), DumpFault>
        requires { IsShort self.now }
        ensures end { OnOk result ((f : ProfileRows) → read_on (done f) self.now ≡ whole self.now.before f) }
        ensures fault { IfErr result (λ fault. (f : ProfileRows) → IsFault fault (read_on (done f) self.now)) }
    {
        if self.rest.is_empty() {
            Ok(())
        } else {
            Err(DumpFault::Line(self.before + 1))
        }
    }
}
