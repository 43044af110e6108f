//! Which command a command line names.
ghost use Rattle.std.specs.Prelude.{◌≡◌, ◌≢◌, IfSome, IfNone, List};
ghost use Rattle.clap.specs.Words.{Row, found_of, rows_of};
ghost use Rattle.fidl_command_line.specs.CommandLine.{Names, word_of};
ghost use Rattle.fidl_command_line.specs.declared.named.CommandName.{CommandName};

use clap::ArgMatches;

/// The commands of the program.
#[derive(Clone, Copy, Drop)]
pub(crate) enum CommandName {
    Compile,
    Migrate,
    Decode,
    Encode,
    Table,
    Dump,
    Serve,
    Explain,
}

/// The command that was named, and what was given to it.
#[derive(Clone, Copy, Drop)]
pub(crate) struct Named<'m, 'a> {
    pub(crate) command: CommandName,
    pub(crate) matches: &'m ArgMatches<'a>,
}

/// The command that a word names.
fn command_of(word: &str) -> Option<CommandName>
    ensures some { IfSome result (λ command. word_of command ≡ word.now) }
    ensures none { IfNone result ((command : CommandName) → word_of command ≢ word.now) }
{
    match word {
        "compile" => Some(CommandName::Compile),
        "migrate" => Some(CommandName::Migrate),
        "decode" => Some(CommandName::Decode),
        "encode" => Some(CommandName::Encode),
        "table" => Some(CommandName::Table),
        "dump" => Some(CommandName::Dump),
        "serve" => Some(CommandName::Serve),
        "explain" => Some(CommandName::Explain),
        _ => None,
    }
}

/// The command that was named.
pub(crate) fn named_command<'m, 'a>(matches: &'m ArgMatches<'a>) -> Option<Named<'m, 'a>>
    ensures some { IfSome result (λ named.
        Names matches.now named.command (rows_of (found_of named.matches.now))) }
    ensures none { IfNone result
        ((command : CommandName) (rows : List Row) → ¬ Names matches.now command rows) }
{
    let (word, matches) = matches.subcommand()?;
    let command = command_of(word)?;
    Some(Named { command, matches })
}
