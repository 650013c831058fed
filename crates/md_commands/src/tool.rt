// The commands, by their names.
ghost use Rattle.std.specs.Prelude.{◌≡◌};
ghost use Rattle.md_commands.specs.Tools.{name_of, tools, tool_named};

/// A command, by what it is for.
#[derive(Clone, Copy, PartialEq, Eq)]
pub enum Tool {
    Check,
    Run,
    Report,
    Page,
    Serve,
    Gen,
    Migrate,
    Feedback,
    Dump,
    Undump,
    Cover,
    Sum,
    Compare,
}

/// The name of a command.
pub fn name_of<'a>(tool: Tool) -> &'a str
    ensures { result.now ≡ name_of tool }
{
    match tool {
        Tool::Check => "check",
        Tool::Run => "run",
        Tool::Report => "report",
        Tool::Page => "page",
        Tool::Serve => "serve",
        Tool::Gen => "gen",
        Tool::Migrate => "migrate",
        Tool::Feedback => "feedback",
        Tool::Dump => "dump",
        Tool::Undump => "undump",
        Tool::Cover => "cover",
        Tool::Sum => "sum",
        Tool::Compare => "compare",
    }
}

/// All commands.
fn all_tools() -> [Tool; 13]
    ensures { result ≡ tools }
{
    [
        Tool::Check,
        Tool::Run,
        Tool::Report,
        Tool::Page,
        Tool::Serve,
        Tool::Gen,
        Tool::Migrate,
        Tool::Feedback,
        Tool::Dump,
        Tool::Undump,
        Tool::Cover,
        Tool::Sum,
        Tool::Compare,
    ]
}

/// The command of this name, where there is one.
pub fn tool_named(name: &str) -> Option<Tool>
    ensures { result ≡ tool_named name.now }
{
    for tool in &all_tools() {
        if name == name_of(*tool) {
            return Some(*tool);
        }
    }
    None
}
