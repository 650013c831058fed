// What holds of each value of a profile, since its fields have 8 and 32 bits. The functions look at each number and do nothing with it.
ghost use Rattle.std.specs.Prelude.{◌≡◌, ◌<◌, ◌^◌, All};
ghost use Rattle.md_dynamic.specs.Valid.{IsValid};
ghost use Rattle.md_deepfile.specs.Bytes.{file_bytes, file_bytes1};
ghost use Rattle.md_deepfile.specs.Spells.{AreSmall, HasRoom};
ghost use Rattle.md_dump.specs.Text.{dump_text};
ghost use Rattle.law_files.specs.Spelled.{AreWhole, IsWhole};

use crate::spelled::{dumped_profiles_are_spelled, encoded_profiles_are_spelled};
use md_base::Counts;
use md_dynamic::{LinkRow, Profile};
use md_static::{Proc, Site};

/// What is written of a valid profile comes back as that profile and as no other, whatever its numbers are: its newer form as a file,
/// its older one where no link has an exception, and its text.
pub fn profiles_come_back(profile: &Profile)
    ensures newer { IsValid profile.now → AreWhole (file_bytes profile.now) profile.now }
    ensures older { IsValid profile.now → All (λ l. l.own.excps ≡ 0) profile.now.links → AreWhole (file_bytes1 profile.now) profile.now }
    ensures text { IsValid profile.now → IsWhole (dump_text profile.now) profile.now }
{
    profiles_have_room(profile);
    encoded_profiles_are_spelled();
    dumped_profiles_are_spelled();
}

/// The numbers of each profile have room in a file.
pub fn profiles_have_room(profile: &Profile)
    ensures { HasRoom profile.now }
{
    arities_have_room(profile.statics().procs());
    lines_have_room(profile.statics().sites());
    counts_have_room(profile.links());
}

fn arities_have_room(procs: &[Proc])
    ensures { All (λ p. p.arity < 256) procs.now }
{
    for proc in procs {
        arity_has_room(proc.arity);
    }
}

fn arity_has_room(arity: u8)
    ensures { arity < 256 }
{}

fn lines_have_room(sites: &[Site])
    ensures { All (λ x. x.line < 2 ^ 32) sites.now }
{
    for site in sites {
        line_has_room(site.line);
    }
}

fn line_has_room(line: u32)
    ensures { line < 2 ^ 32 }
{}

fn counts_have_room(links: &[LinkRow])
    ensures { All (λ l. AreSmall l.own) links.now }
{
    for link in links {
        own_counts_have_room(link.own);
    }
}

fn own_counts_have_room(own: Counts)
    ensures { AreSmall own }
{}
