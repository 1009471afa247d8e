// Commands without an option of their own.

ghost use Rattle.std.specs.Prelude.{◌≡◌, IfOk, codes, false};
ghost use Rattle.clap.specs.Words.{app_of};
ghost use Rattle.clap.specs.declared.builder.command.Command.TheViews.{out-Command};
ghost use Rattle.ls_command_line.specs.Words.{with_explain, with_java};

use crate::line::{class_command, plain_command};
use clap::Command;
use std::alloc::{AllocError, Global};

pub(crate) fn check_command<'a>(alloc: Global) -> Result<Command<'a>, AllocError>
    ensures shape { IfOk result (λ c. app_of c ≡ with_explain (codes "check")) }
    ensures local { IfOk result (λ c. (out-Command c).has_globals ≡ false) }
{
    plain_command(
        alloc,
        "check",
        "Tells whether an order of a history's set calls is legal",
        "Standard input has two parts, a history and an order, with a line %% between them:\n  \
         printf 'A.1 call s.add(1)\\nA.1 return true\\n%%%%\\nA.1\\n' | listset check",
    )
}

pub(crate) fn compile_command<'a>(alloc: Global) -> Result<Command<'a>, AllocError>
    ensures shape { IfOk result (λ c. app_of c ≡ with_java (codes "compile")) }
    ensures local { IfOk result (λ c. (out-Command c).has_globals ≡ false) }
{
    class_command(
        alloc,
        "compile",
        "Compiles a program, and counts its classes, methods and threads",
        "Standard input has two parts, class text and thread program, with a line %% between them:\n  \
         printf 'class C { }\\n%%%%\\nsetup { c = new C(); }\\n' | listset compile",
    )
}

pub(crate) fn source_command<'a>(alloc: Global) -> Result<Command<'a>, AllocError>
    ensures shape { IfOk result (λ c. app_of c ≡ with_java (codes "source")) }
    ensures local { IfOk result (λ c. (out-Command c).has_globals ≡ false) }
{
    class_command(
        alloc,
        "source",
        "Runs a program from its Java text under a schedule of source steps",
        "Standard input has three parts, class text, thread program and schedule, with a line %% between them:\n  \
         listset source < examples/lost_update.txt",
    )
}

pub(crate) fn aim_command<'a>(alloc: Global) -> Result<Command<'a>, AllocError>
    ensures shape { IfOk result (λ c. app_of c ≡ with_java (codes "aim")) }
    ensures local { IfOk result (λ c. (out-Command c).has_globals ≡ false) }
{
    class_command(
        alloc,
        "aim",
        "Prints the schedule of source steps that stops threads before what they are to do",
        "Standard input has three parts, class text, thread program and targets, with a line %% between them:\n  \
         listset aim < examples/lost_update_aimed.txt",
    )
}

pub(crate) fn java_command<'a>(alloc: Global) -> Result<Command<'a>, AllocError>
    ensures shape { IfOk result (λ c. app_of c ≡ with_explain (codes "java")) }
    ensures local { IfOk result (λ c. (out-Command c).has_globals ≡ false) }
{
    plain_command(
        alloc,
        "java",
        "Restates Java as it is written as a class text, and says on standard error what it restates and what it can't",
        "Standard input is a Java file:\n  \
         listset java < examples/java/TicketLock.java",
    )
}
