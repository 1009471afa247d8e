// What each token of a thread program does.

ghost use Rattle.std.specs.Prelude.{◌≡◌, IfErr, IfOk, map, option_copied};
ghost use Rattle.ls_lexer.specs.Lexemes.{lexeme_of};
ghost use Rattle.ls_checked.specs.PlainProgram.{plain_thread};
ghost use Rattle.ls_types_checked.specs.CheckedFile.{elaborated_file};
ghost use Rattle.ls_types_programs.specs.ThreadPrograms.{is_sign, is_word, name_in, number_in, stepped, at_call};
ghost use Rattle.ls_types_programs.specs.ThreadPrograms.{after_name, after_new, after_dot, argument, after_minus};
ghost use Rattle.ls_types_programs.specs.ThreadPrograms.{at_first, after_argument, at_semicolon, at_thread_name};
ghost use Rattle.ls_types_programs.specs.ThreadPrograms.{arguments_end, thread_named, closed, with_finished};
ghost use Rattle.ls_types_programs.specs.ThreadPrograms.{with_call, is_text, at_thread};
ghost use Rattle.ls_types_programs.specs.ThreadPrograms.{AfterArgument as after_argument_stage};
ghost use Rattle.ls_types_programs.specs.ProgramCalls.{with_argument};
ghost use Rattle.ls_types_programs.specs.Stops.{fault_for, Form, TooFew, unmarked, name_mark, callee_mark};
ghost use Rattle.ls_types_programs.specs.Stops.{minus_mark, why, why_name, why_new, why_dot, why_value, why_argument};
ghost use Rattle.ls_types_programs.specs.Stops.{why_minus, why_first, why_after, why_semicolon, why_thread};
ghost use Rattle.ls_types_programs.specs.Stops.{why_thread_name};
ghost use Rattle.ls_types_checked.specs.ProgramViews.{pending_of, fault_seen, ReadsAs};
ghost use Rattle.ls_types_reading.specs.ReadingViews.{parts_of, stage_of, reading_of, marks_of, Goes};
ghost use Rattle.ls_types_reading.specs.declared.reading.Stage.TheVariants.{AtSemicolon as at_semicolon_stage};

use crate::methods::Methods;
use crate::reading::{Parts, Stage};
use crate::setup_names::SetupNames;
use crate::together::passing;
use ls_checked::program::ThreadProgram;
use ls_events::value::Value;
use ls_lexer::sign::Sign;
use ls_lexer::token::{Token, TokenKind};
use ls_lexer::word::Word;
use ls_types_checked::calls::{
    Pending, call_of, called_on, is_full, maker, minus_number, plain_number, with_argument,
};
use ls_types_checked::fault::ProgramFault;
use std::alloc::{AllocError, Global};
use std::mem;

/// The most threads beside the setup.
pub const MOST_PROGRAM_THREADS: usize = 64;

/// The most calls of a thread, and of the setup.
pub const MOST_THREAD_CALLS: usize = 256;

fn is_sign(sign: Sign, kind: TokenKind) -> bool
    ensures { result ≡ is_sign sign (lexeme_of kind.entry) }
{
    match kind {
        TokenKind::Name(_) => false,
        TokenKind::Number(_) => false,
        TokenKind::Word(_) => false,
        TokenKind::Sign(s) => s == sign,
    }
}

fn is_word(word: Word, kind: TokenKind) -> bool
    ensures { result ≡ is_word word (lexeme_of kind.entry) }
{
    match kind {
        TokenKind::Name(_) => false,
        TokenKind::Number(_) => false,
        TokenKind::Word(w) => w == word,
        TokenKind::Sign(_) => false,
    }
}

fn name_in<'a>(kind: TokenKind<'a>) -> Option<&'a str>
    ensures { option_copied result ≡ name_in (lexeme_of kind.entry) }
{
    match kind {
        TokenKind::Name(text) => Some(text),
        TokenKind::Number(_) => None,
        TokenKind::Word(_) => None,
        TokenKind::Sign(_) => None,
    }
}

fn number_in<'a>(kind: TokenKind<'a>) -> Option<&'a str>
    ensures { option_copied result ≡ number_in (lexeme_of kind.entry) }
{
    match kind {
        TokenKind::Name(_) => None,
        TokenKind::Number(text) => Some(text),
        TokenKind::Word(_) => None,
        TokenKind::Sign(_) => None,
    }
}

fn thread_named(threads: &[ThreadProgram], name: &str) -> bool
    ensures { result ≡ thread_named (map plain_thread threads.now) name.now }
{
    match threads {
        [] => false,
        [t, rest @ ..] => t.name.as_str() == name || thread_named(rest, name),
    }
}

fn is_text(text: &str, name: Option<&str>) -> bool
    ensures { result ≡ is_text text.now (option_copied name.entry) }
{
    match name {
        None => false,
        Some(name) => name == text,
    }
}

impl Parts {
    /// The stage after one more token, or the fault at the token or its statement if the token can't come. Else the
    /// only refusal is that memory ran out.
    pub fn stepped<'a>(
        &mut self,
        alloc: Global,
        methods: &Methods,
        stage: Stage<'a>,
        token: Token<'a>,
    ) -> Result<Stage<'a>, ProgramFault>
        ensures read { ReadsAs (reading_of self.new) result
            (stepped (elaborated_file methods.now.checked.now) (parts_of self.old) (stage_of stage.entry)
            (lexeme_of token.entry.kind)) }
        ensures place { Goes (marks_of stage.entry) token.entry.span.start
            (why (elaborated_file methods.now.checked.now) (parts_of self.old) (stage_of stage.entry)
            (lexeme_of token.entry.kind)) result }
    {
        let kind = token.kind;
        let bad = ProgramFault::BadProgram {
            at: token.span.start,
        };
        match stage {
            Stage::AtSetup => passing(Stage::AtBlock, is_text("setup", name_in(kind)), bad),
            Stage::AtBlock => passing(Stage::AtCall, is_sign(Sign::OpenBrace, kind), bad),
            Stage::AtCall => self.at_call(alloc, token),
            Stage::AfterName(name, at) => self.after_name(name, at, token),
            Stage::AfterAssign(name) => {
                passing(Stage::AfterNew(name), is_word(Word::New, kind), bad)
            }
            Stage::AfterNew(name) => self.after_new(alloc, methods, name, token),
            Stage::AfterDot(n) => self.after_dot(alloc, methods, n, token),
            Stage::AtArguments(p) => passing(
                Stage::AtFirst(p),
                is_sign(Sign::OpenParen, kind),
                bad,
            ),
            Stage::AtFirst(p) => self.at_first(p, token),
            Stage::AtArgument(p) => self.argument(p, token),
            Stage::AfterMinus(p, minus) => self.after_minus(p, minus, token),
            Stage::AfterArgument(p) => self.after_argument(p, token),
            Stage::AtSemicolon(p) => self.at_semicolon(alloc, p, token),
            Stage::AtThread => self.at_thread(token),
            Stage::AtThreadName => self.at_thread_name(alloc, token),
        }
    }

    // The end of a block.
    fn close(&mut self, alloc: Global) -> Result<(), AllocError>
        ensures { IfOk result (λ _. parts_of self.new ≡ closed (parts_of self.old)) }
    {
        let name = mem::replace(&mut self.name, String::new(alloc));
        let calls = mem::replace(&mut self.calls, Vec::new(alloc));
        self.threads.push(ThreadProgram { name, calls })?;
        Ok(())
    }

    fn at_call<'a>(&mut self, alloc: Global, token: Token<'a>) -> Result<Stage<'a>, ProgramFault>
        ensures read { ReadsAs (reading_of self.new) result
            (at_call (parts_of self.old) (lexeme_of token.entry.kind) (name_in (lexeme_of token.entry.kind))) }
        ensures place { Goes unmarked token.entry.span.start Form result }
    {
        let at = token.span.start;
        if let Some(name) = name_in(token.kind) {
            return Ok(Stage::AfterName(name, at));
        }
        if !is_sign(Sign::CloseBrace, token.kind) {
            return Err(ProgramFault::BadProgram { at });
        }
        self.close(alloc)?;
        Ok(Stage::AtThread)
    }

    // `=` gives a new name, in the setup alone; `.` uses a name that is given.
    fn after_name<'a>(
        &self,
        name: &'a str,
        at: usize,
        token: Token<'a>,
    ) -> Result<Stage<'a>, ProgramFault>
        ensures read { ReadsAs (reading_of self.now) result
            (after_name (parts_of self.now) name.entry.now (lexeme_of token.entry.kind)) }
        ensures place { Goes (name_mark at) token.entry.span.start (why_name (lexeme_of token.entry.kind)) result }
    {
        if is_sign(Sign::Assign, token.kind) {
            if self.threads.len() < 1 && self.names.number_of(name).is_none() {
                return Ok(Stage::AfterAssign(name));
            }
            return Err(ProgramFault::BadProgram { at });
        }
        if !is_sign(Sign::Dot, token.kind) {
            return Err(ProgramFault::BadProgram {
                at: token.span.start,
            });
        }
        match self.names.number_of(name) {
            None => Err(ProgramFault::UnknownThing { at }),
            Some(n) => Ok(Stage::AfterDot(n)),
        }
    }

    fn after_new<'a>(
        &self,
        alloc: Global,
        methods: &Methods,
        name: &'a str,
        token: Token<'a>,
    ) -> Result<Stage<'a>, ProgramFault>
        ensures read { ReadsAs (reading_of self.now) result
            (after_new (elaborated_file methods.now.checked.now) (parts_of self.now) name.entry.now
            (name_in (lexeme_of token.entry.kind))) }
        ensures place { Goes unmarked token.entry.span.start (why_new (name_in (lexeme_of token.entry.kind))) result }
    {
        let at = token.span.start;
        match name_in(token.kind) {
            None => Err(ProgramFault::BadProgram { at }),
            Some(class) => Ok(Stage::AtArguments(maker(alloc, methods.checked, name, class, at)?)),
        }
    }

    fn after_dot<'a>(
        &self,
        alloc: Global,
        methods: &Methods,
        n: usize,
        token: Token<'a>,
    ) -> Result<Stage<'a>, ProgramFault>
        ensures read { ReadsAs (reading_of self.now) result
            (after_dot (elaborated_file methods.now.checked.now) (parts_of self.now) n
            (name_in (lexeme_of token.entry.kind))) }
        ensures place { Goes unmarked token.entry.span.start
            (why_dot (elaborated_file methods.now.checked.now) (parts_of self.now) n
            (name_in (lexeme_of token.entry.kind)))
            result }
    {
        let at = token.span.start;
        match name_in(token.kind) {
            None => Err(ProgramFault::BadProgram { at }),
            Some(method) => {
                let found = methods.method_on(self.names.get(n), method);
                let p = called_on(alloc, found, n, method, at)?;
                Ok(Stage::AtArguments(p))
            }
        }
    }

    // The value of an argument, which is at `at`.
    fn valued<'a>(&self, p: Pending<'a>, v: Value, at: usize) -> Result<Stage<'a>, ProgramFault>
        ensures read { ReadsAs (reading_of self.now) result
            (with_call (parts_of self.now) after_argument_stage (with_argument (pending_of p.entry) v)) }
        ensures place { Goes (callee_mark p.entry.at) at (why_value (pending_of p.entry)) result }
    {
        Ok(Stage::AfterArgument(with_argument(p, v, at)?))
    }

    fn argument<'a>(&self, p: Pending<'a>, token: Token<'a>) -> Result<Stage<'a>, ProgramFault>
        ensures read { ReadsAs (reading_of self.now) result
            (argument (parts_of self.now) (pending_of p.entry) (lexeme_of token.entry.kind)
            (number_in (lexeme_of token.entry.kind))) }
        ensures place { Goes (callee_mark p.entry.at) token.entry.span.start
            (why_argument (pending_of p.entry) (lexeme_of token.entry.kind) (number_in (lexeme_of token.entry.kind)))
            result }
    {
        let at = token.span.start;
        if let Some(digits) = number_in(token.kind) {
            return match plain_number(digits) {
                None => Err(ProgramFault::BadProgram { at }),
                Some(v) => self.valued(p, v, at),
            };
        }
        if is_word(Word::True, token.kind) {
            return self.valued(p, Value::Boolean(true), at);
        }
        if is_word(Word::False, token.kind) {
            return self.valued(p, Value::Boolean(false), at);
        }
        let is_minus = is_sign(Sign::Minus, token.kind);
        passing(
            Stage::AfterMinus(p, at),
            is_minus,
            ProgramFault::BadProgram { at },
        )
    }

    fn after_minus<'a>(
        &self,
        p: Pending<'a>,
        minus: usize,
        token: Token<'a>,
    ) -> Result<Stage<'a>, ProgramFault>
        ensures read { ReadsAs (reading_of self.now) result
            (after_minus (parts_of self.now) (pending_of p.entry) (number_in (lexeme_of token.entry.kind))) }
        ensures place { Goes (minus_mark p.entry.at minus) token.entry.span.start
            (why_minus (pending_of p.entry) (number_in (lexeme_of token.entry.kind))) result }
    {
        match number_in(token.kind) {
            None => Err(ProgramFault::BadProgram {
                at: token.span.start,
            }),
            Some(digits) => self.valued(p, minus_number(digits), minus),
        }
    }

    fn arguments_end<'a>(&self, p: Pending<'a>) -> Result<Stage<'a>, ProgramFault>
        ensures read { ReadsAs (reading_of self.now) result (arguments_end (parts_of self.now) (pending_of p.entry)) }
        ensures stage { IfOk result (λ s. s ≡ at_semicolon_stage p.entry) }
        ensures place { IfErr result (λ e. e ≡ fault_seen (fault_for (callee_mark p.entry.at) 0 TooFew)) }
    {
        let full = is_full(&p);
        let fault = ProgramFault::UnknownThing { at: p.at };
        passing(Stage::AtSemicolon(p), full, fault)
    }

    fn at_first<'a>(&self, p: Pending<'a>, token: Token<'a>) -> Result<Stage<'a>, ProgramFault>
        ensures read { ReadsAs (reading_of self.now) result
            (at_first (parts_of self.now) (pending_of p.entry) (lexeme_of token.entry.kind)) }
        ensures place { Goes (callee_mark p.entry.at) token.entry.span.start
            (why_first (pending_of p.entry) (lexeme_of token.entry.kind)) result }
    {
        if is_sign(Sign::CloseParen, token.kind) {
            self.arguments_end(p)
        } else {
            self.argument(p, token)
        }
    }

    fn after_argument<'a>(
        &self,
        p: Pending<'a>,
        token: Token<'a>,
    ) -> Result<Stage<'a>, ProgramFault>
        ensures read { ReadsAs (reading_of self.now) result
            (after_argument (parts_of self.now) (pending_of p.entry) (lexeme_of token.entry.kind)) }
        ensures place { Goes (callee_mark p.entry.at) token.entry.span.start (why_after (lexeme_of token.entry.kind))
            result }
    {
        if is_sign(Sign::CloseParen, token.kind) {
            return self.arguments_end(p);
        }
        let fault = ProgramFault::BadProgram {
            at: token.span.start,
        };
        passing(
            Stage::AtArgument(p),
            is_sign(Sign::Comma, token.kind),
            fault,
        )
    }

    // One more call.
    fn finish(&mut self, alloc: Global, p: Pending) -> Result<(), AllocError>
        ensures { IfOk result (λ _. parts_of self.new ≡ with_finished (parts_of self.old) (pending_of p.entry)) }
    {
        let callee = p.callee;
        let call = call_of(alloc, self.names.len(), p)?;
        self.calls.push(call)?;
        let names = mem::replace(&mut self.names, SetupNames::new(alloc));
        self.names = names.with_callee(alloc, callee)?;
        Ok(())
    }

    fn at_semicolon<'a>(
        &mut self,
        alloc: Global,
        p: Pending<'a>,
        token: Token<'a>,
    ) -> Result<Stage<'a>, ProgramFault>
        ensures read { ReadsAs (reading_of self.new) result
            (at_semicolon (parts_of self.old) (pending_of p.entry) (lexeme_of token.entry.kind)) }
        ensures place { Goes (callee_mark p.entry.at) token.entry.span.start
            (why_semicolon (lexeme_of token.entry.kind)) result }
    {
        if !is_sign(Sign::Semicolon, token.kind) {
            return Err(ProgramFault::BadProgram {
                at: token.span.start,
            });
        }
        if self.calls.len() >= MOST_THREAD_CALLS {
            return Err(ProgramFault::ProgramLimit);
        }
        self.finish(alloc, p)?;
        Ok(Stage::AtCall)
    }

    // Another thread, if there is room.
    fn at_thread<'a>(&self, token: Token<'a>) -> Result<Stage<'a>, ProgramFault>
        ensures read { ReadsAs (reading_of self.now) result
            (at_thread (parts_of self.now) (lexeme_of token.entry.kind)) }
        ensures place { Goes unmarked token.entry.span.start (why_thread (lexeme_of token.entry.kind)) result }
    {
        if !is_text("thread", name_in(token.kind)) {
            return Err(ProgramFault::BadProgram {
                at: token.span.start,
            });
        }
        if self.threads.len() > MOST_PROGRAM_THREADS {
            return Err(ProgramFault::ProgramLimit);
        }
        Ok(Stage::AtThreadName)
    }

    fn at_thread_name<'a>(
        &mut self,
        alloc: Global,
        token: Token<'a>,
    ) -> Result<Stage<'a>, ProgramFault>
        ensures read { ReadsAs (reading_of self.new) result
            (at_thread_name (parts_of self.old) (name_in (lexeme_of token.entry.kind))) }
        ensures place { Goes unmarked token.entry.span.start (why_thread_name (name_in (lexeme_of token.entry.kind)))
            result }
    {
        let at = token.span.start;
        let Some(name) = name_in(token.kind) else {
            return Err(ProgramFault::BadProgram { at });
        };
        if name == "all" || thread_named(&self.threads, name) {
            return Err(ProgramFault::BadProgram { at });
        }
        self.name = String::from_str(alloc, name)?;
        self.calls.clear();
        Ok(Stage::AtBlock)
    }
}
