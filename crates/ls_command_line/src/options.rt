// What the next word is after an option of a command.

ghost use Rattle.std.specs.Prelude.{◌≡◌, map, option_map};
ghost use Rattle.clap.specs.Words.{app_of, rule_of};
ghost use Rattle.ls_command_line.specs.Sorting.{bare, is_called, known_in, opens_for, opens_known, rules_for, takes_by};
ghost use Rattle.ls_command_line.specs.Sorting.{takes_value};

use clap::{Arg, ArgAction, Command};
use std::alloc::AllocError;

/// What the next word is after an option.
#[derive(Copy)]
pub(crate) enum Opens {
    /// A word of its own.
    Nothing,
    /// The option's value.
    Value,
    /// A line of the menu.
    Menu,
    /// A line of the menu for the setup alone.
    Setup,
    /// The file of a reference.
    Reference,
    /// A word of its own: the data of a page are wanted alone.
    Data,
}

impl Clone for Opens {
    fn clone(&self) -> Result<Opens, AllocError> {
        Ok(*self)
    }
}

/// Whether an option of this action takes a value.
fn takes_by(action: ArgAction) -> bool
    ensures { result ≡ takes_by action }
{
    match action {
        ArgAction::SetTrue => false,
        _ => true,
    }
}

/// Whether the option is of this name.
fn is_called(option: &Arg<'_>, name: &str) -> bool
    ensures { result ≡ is_called name.now (rule_of option.now) }
{
    match option.get_long() {
        Some(long) => long == name,
        None => false,
    }
}

/// Whether the option of this name takes a value, if it is one of these.
fn takes_value(options: &[Arg<'_>], name: &str) -> Option<bool>
    ensures { result ≡ takes_value name.now (map rule_of options.now) }
{
    for option in options {
        if is_called(option, name) {
            return Some(takes_by(option.get_action()));
        }
    }
    None
}

/// A name without its two dashes.
fn bare(name: &str) -> Option<&str>
    ensures { option_map (λ rest. rest.now) result ≡ bare name.now }
{
    name.strip_prefix("--")
}

/// The same of a name with its two dashes.
fn known_in(options: &[Arg<'_>], name: &str) -> Option<bool>
    ensures { result ≡ known_in (map rule_of options.now) (bare name.now) }
{
    match bare(name) {
        Some(bare) => takes_value(options, bare),
        None => None,
    }
}

/// What the next word is after an option, if it is one of the command's.
fn opens_known(name: &str, takes: Option<bool>) -> Opens
    ensures { result ≡ opens_known name.now takes }
{
    match takes {
        None => Opens::Nothing,
        Some(_) if name == "--spec" => Opens::Reference,
        Some(true) => Opens::Value,
        Some(false) => Opens::Nothing,
    }
}

/// What the next word is after a word of a command line that begins with a dash.
pub(crate) fn opens_for(command: &str, options: &[Arg<'_>], name: &str) -> Opens
    ensures { result ≡ opens_for command.now (map rule_of options.now) name.now }
{
    if command == "find" && name == "--menu" {
        return Opens::Menu;
    }
    if command == "find" && name == "--setup-menu" {
        return Opens::Setup;
    }
    if command == "page" && name == "--data" {
        return Opens::Data;
    }
    opens_known(name, known_in(options, name))
}

/// The options of the command of this name, if there is one.
pub(crate) fn options_of<'c, 'a>(program: &'c Command<'a>, command: &str) -> Option<&'c [Arg<'a>]>
    ensures { option_map (λ options. map rule_of options.now) result ≡ rules_for (app_of program.now) command.now }
{
    match program.find_subcommand(command) {
        Some(found) => Some(found.get_arguments()),
        None => None,
    }
}
