// The forms of lines.
ghost use Rattle.std.specs.Prelude.{◌≡◌, option_map};
ghost use Rattle.md_deepfile.specs.Rules.{proc_of};
ghost use Rattle.md_dump.specs.Forms as spec;

use crate::words::WordReader;
use md_base::Counts;

/// The line of a procedure: module, name, arity.
#[derive(Clone, Copy)]
pub(crate) struct ProcLine<'a> {
    pub home: u32,
    pub name: &'a [u8],
    pub arity: u8,
}

/// The line of a call site. A higher-order site has no callee.
#[derive(Clone, Copy, PartialEq, Eq)]
pub(crate) struct SiteLine {
    pub owner: u32,
    pub line: u32,
    pub callee: Option<u32>,
}

/// The line of a link other than the root link.
#[derive(Clone, Copy, PartialEq, Eq)]
pub(crate) struct LinkLine {
    pub caller: u32,
    pub site: u32,
    pub callee: u32,
    pub own: Counts,
}

/// The name of a section, and the number of its members.
pub(crate) fn count_form(name: &[u8], line: &[u8]) -> Option<u32>
    ensures { result ≡ spec.count_form name.now (spec.words_of line.now) }
{
    let mut words = WordReader::new(line);
    words.exactly(name)?;
    let count = words.number()?;
    words.end()?;
    Some(count)
}

/// Module, name, arity.
pub(crate) fn proc_form(line: &[u8]) -> Option<ProcLine<'_>>
    ensures { option_map (λ p. proc_of p.home p.name.now p.arity) result ≡ spec.proc_form (spec.words_of line.now) }
{
    let mut words = WordReader::new(line);
    let home = words.number()?;
    let name = words.word()?;
    let arity = words.arity()?;
    words.end()?;
    Some(ProcLine { home, name, arity })
}

/// Owner, line, callee.
pub(crate) fn site_form(line: &[u8]) -> Option<SiteLine>
    ensures { result ≡ spec.site_form (spec.words_of line.now) }
{
    let mut words = WordReader::new(line);
    let owner = words.number()?;
    let at = words.number()?;
    let callee = words.maybe()?;
    words.end()?;
    Some(SiteLine {
        owner,
        line: at,
        callee,
    })
}

/// The procedure.
pub(crate) fn context_form(line: &[u8]) -> Option<u32>
    ensures { result ≡ spec.context_form (spec.words_of line.now) }
{
    let mut words = WordReader::new(line);
    let proc = words.number()?;
    words.end()?;
    Some(proc)
}

/// No caller, no site, context 0, and the counts.
pub(crate) fn root_form(line: &[u8]) -> Option<Counts>
    ensures { result ≡ spec.root_form (spec.words_of line.now) }
{
    let mut words = WordReader::new(line);
    words.exactly(b"-")?;
    words.exactly(b"-")?;
    words.exactly(b"0")?;
    let own = words.counts()?;
    words.end()?;
    Some(own)
}

/// Caller, site, callee, and the counts.
pub(crate) fn link_form(line: &[u8]) -> Option<LinkLine>
    ensures { result ≡ spec.link_form (spec.words_of line.now) }
{
    let mut words = WordReader::new(line);
    let caller = words.number()?;
    let site = words.number()?;
    let callee = words.number()?;
    let own = words.counts()?;
    words.end()?;
    Some(LinkLine {
        caller,
        site,
        callee,
        own,
    })
}
