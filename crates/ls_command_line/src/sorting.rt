// Which words of a command line ask for something, and which name what is read.

ghost use Rattle.std.specs.Prelude.{◌≡◌, ◌≤◌, [], IfOk, length, map, option_map, string_bytes};
ghost use Rattle.clap.specs.Words.{app_of, rule_of};
ghost use Rattle.ls_command_line.specs.Sorting.{SortsTo, all_placed, asking_all, awaiting, is_option, option_placed};
ghost use Rattle.ls_command_line.specs.Sorting.{placed, plain_given, sorted_by, sorted_for, with_asking, with_file};
ghost use Rattle.ls_command_line.specs.Sorting.{with_line, with_option, with_reference, with_valued, word_placed};

use crate::line::program;
use crate::options::{Opens, opens_for, options_of};
use clap::{Arg, Command};
use std::alloc::{AllocError, Global};

/// What the next word is.
#[derive(Debug, Copy)]
pub enum Awaits {
    /// No value of a word before it.
    Word,
    /// The value of an option.
    Value,
    /// A line of the menu.
    Menu,
    /// A line of the menu for the setup alone.
    Setup,
    /// The file of the reference.
    Reference,
    /// A file, whatever it begins with.
    File,
}

impl Clone for Awaits {
    fn clone(&self) -> Result<Awaits, AllocError> {
        Ok(*self)
    }
}

/// The words of a command line, sorted.
#[derive(Debug, Drop)]
pub struct Given {
    /// The program's own name, the command, and its options with their values.
    pub asking: Vec<String>,
    /// The files whose parts are read, in their order. `-` is standard input.
    pub files: Vec<String>,
    /// The lines of a menu.
    pub menu: String,
    /// The file whose text is the reference.
    pub reference: Option<String>,
    /// Whether the data of a page are wanted alone.
    pub data_alone: bool,
    /// What is still awaited.
    pub awaits: Awaits,
}

/// The same words.
fn copied(alloc: Global, words: &[String]) -> Result<Vec<String>, AllocError>
    ensures { IfOk result (λ copies. map string_bytes copies.items ≡ map string_bytes words.now) }
{
    let mut copies = Vec::with_capacity(alloc, words.len())?;
    for word in words {
        copies.push(String::from_str(alloc, word.as_str())?)?;
    }
    Ok(copies)
}

/// All of the words ask for something.
fn asking_all(alloc: Global, words: &[String]) -> Result<Given, AllocError>
    ensures { IfOk result (λ given. plain_given given ≡ asking_all (map string_bytes words.now)) }
{
    Ok(Given {
        asking: copied(alloc, words)?,
        files: Vec::new(alloc),
        menu: String::new(alloc),
        reference: None,
        data_alone: false,
        awaits: Awaits::Word,
    })
}

/// The same words, before what is awaited.
fn awaiting(awaits: Awaits, mut given: Given) -> Given
    ensures { plain_given result ≡ awaiting awaits (plain_given given) }
{
    given.awaits = awaits;
    given
}

/// One more word that asks for something.
fn with_asking(alloc: Global, word: &str, mut given: Given) -> Result<Given, AllocError>
    ensures { IfOk result (λ more. plain_given more ≡ with_asking word.now (plain_given given)) }
{
    given.asking.push(String::from_str(alloc, word)?)?;
    Ok(given)
}

/// One more word that names a file.
fn with_file(alloc: Global, word: &str, mut given: Given) -> Result<Given, AllocError>
    ensures { IfOk result (λ more. plain_given more ≡ with_file word.now (plain_given given)) }
{
    given.files.push(String::from_str(alloc, word)?)?;
    Ok(given)
}

/// One more line of the menu, with these words before it.
fn with_line(front: &str, word: &str, mut given: Given) -> Result<Given, AllocError>
    ensures { IfOk result (λ more. plain_given more ≡ with_line front.now word.now (plain_given given)) }
{
    given.menu.push_str(front)?;
    given.menu.push_str(word)?;
    given.menu.push_str("\n")?;
    Ok(given)
}

/// The reference is in this file.
fn with_reference(alloc: Global, word: &str, mut given: Given) -> Result<Given, AllocError>
    ensures { IfOk result (λ more. plain_given more ≡ with_reference word.now (plain_given given)) }
{
    given.reference = Some(String::from_str(alloc, word)?);
    Ok(given)
}

/// An option that stands alone in its word.
fn with_option(
    alloc: Global,
    opens: Opens,
    word: &str,
    mut given: Given,
) -> Result<Given, AllocError>
    ensures { IfOk result (λ more. plain_given more ≡ with_option opens word.now (plain_given given)) }
{
    match opens {
        Opens::Nothing => with_asking(alloc, word, given),
        Opens::Value => Ok(awaiting(Awaits::Value, with_asking(alloc, word, given)?)),
        Opens::Menu => Ok(awaiting(Awaits::Menu, given)),
        Opens::Setup => Ok(awaiting(Awaits::Setup, given)),
        Opens::Reference => Ok(awaiting(Awaits::Reference, given)),
        Opens::Data => {
            given.data_alone = true;
            Ok(given)
        }
    }
}

/// An option whose value stands in its word too.
fn with_valued(
    alloc: Global,
    opens: Opens,
    word: &str,
    value: &str,
    given: Given,
) -> Result<Given, AllocError>
    ensures { IfOk result (λ more. plain_given more ≡ with_valued opens word.now value.now (plain_given given)) }
{
    match opens {
        Opens::Menu => with_line("", value, given),
        Opens::Setup => with_line("setup: ", value, given),
        Opens::Reference => with_reference(alloc, value, given),
        _ => with_asking(alloc, word, given),
    }
}

/// Whether a word begins with a dash, and is more than that.
fn is_option(word: &str) -> bool
    ensures { result ≡ is_option word.now }
{
    match word.as_bytes() {
        [first, _, ..] => *first == b'-',
        _ => false,
    }
}

/// A word that begins with a dash.
fn option_placed(
    alloc: Global,
    command: &str,
    options: &[Arg<'_>],
    word: &str,
    given: Given,
) -> Result<Given, AllocError>
    ensures { IfOk result (λ more. plain_given more ≡
        option_placed command.now (map rule_of options.now) word.now (plain_given given)) }
{
    match word.split_once('=') {
        Some((name, value)) => {
            let opens = opens_for(command, options, name);
            with_valued(alloc, opens, word, value, given)
        }
        None => {
            let opens = opens_for(command, options, word);
            with_option(alloc, opens, word, given)
        }
    }
}

/// A word that isn't the value of one before it.
fn word_placed(
    alloc: Global,
    command: &str,
    options: &[Arg<'_>],
    word: &str,
    given: Given,
) -> Result<Given, AllocError>
    ensures { IfOk result (λ more. plain_given more ≡
        word_placed command.now (map rule_of options.now) word.now (plain_given given)) }
{
    if word == "--" {
        return Ok(awaiting(Awaits::File, given));
    }
    if is_option(word) {
        return option_placed(alloc, command, options, word, given);
    }
    with_file(alloc, word, given)
}

/// One more word, whatever it is.
fn placed(
    alloc: Global,
    command: &str,
    options: &[Arg<'_>],
    word: &str,
    given: Given,
) -> Result<Given, AllocError>
    ensures { IfOk result (λ more. plain_given more ≡
        placed command.now (map rule_of options.now) word.now (plain_given given)) }
{
    let more = match given.awaits {
        Awaits::Word => return word_placed(alloc, command, options, word, given),
        Awaits::File => return with_file(alloc, word, given),
        Awaits::Value => with_asking(alloc, word, given)?,
        Awaits::Menu => with_line("", word, given)?,
        Awaits::Setup => with_line("setup: ", word, given)?,
        Awaits::Reference => with_reference(alloc, word, given)?,
    };
    Ok(awaiting(Awaits::Word, more))
}

/// All of these words, one after another.
fn all_placed(
    alloc: Global,
    command: &str,
    options: &[Arg<'_>],
    words: &[String],
    given: Given,
) -> Result<Given, AllocError>
    ensures { IfOk result (λ more. plain_given more ≡ all_placed command.now (map rule_of options.now)
        (map string_bytes words.now) (plain_given given)) }
{
    let mut given = given;
    for word in words {
        given = placed(alloc, command, options, word.as_str(), given)?;
    }
    Ok(given)
}

/// The words by the options of their command, the second of them, if it is one; these come behind it.
fn sorted_by(
    alloc: Global,
    words: &[String],
    command: &str,
    more: &[String],
    options: Option<&[Arg<'_>]>,
) -> Result<Given, AllocError>
    requires { 2 ≤ length words.now }
    ensures { IfOk result (λ given. plain_given given ≡ sorted_by (map string_bytes words.now) command.now
        (map string_bytes more.now) (option_map (λ o. map rule_of o.now) options.entry)) }
{
    match options {
        Some(options) => {
            let given = asking_all(alloc, &words[..2])?;
            all_placed(alloc, command, options, more, given)
        }
        None => asking_all(alloc, words),
    }
}

/// The words of a command line of this program.
fn sorted_for(alloc: Global, program: &Command<'_>, words: &[String]) -> Result<Given, AllocError>
    ensures { IfOk result (λ given. plain_given given ≡ sorted_for (app_of program.now) (map string_bytes words.now)) }
{
    match words {
        [_, command, more @ ..] => {
            let options = options_of(program, command.as_str());
            sorted_by(alloc, words, command.as_str(), more, options)
        }
        _ => asking_all(alloc, words),
    }
}

/// The words of a command line, which begin with the program's own name: those that ask for something, and those that
/// name what is read. The only refusal is that memory ran out.
pub fn sort_words(alloc: Global, words: &[String]) -> Result<Given, AllocError>
    ensures { IfOk result (λ given. SortsTo (map string_bytes words.now) (plain_given given)) }
{
    let program = program(alloc)?;
    sorted_for(alloc, &program, words)
}
