ghost use Rattle.std.specs.Prelude.{◌≡◌, ◌≤◌, ◌||◌, ◌&&◌, false, OnOk, option_and_then};
ghost use Rattle.dill_script.specs.Contexts.{opening, bare, is_place, places, saying, ended, ending, adding, behind, after};
ghost use Rattle.dill_script.specs.Headings.{heading_of};
ghost use Rattle.dill_script.specs.Lines.{has_tokens};
ghost use Rattle.dill_script.specs.Reading.{started_by};
ghost use Rattle.dill_script.specs.Refusals.{passes_limit, faults, first_reason};
ghost use Rattle.dill_script.specs.Statements.{line_of};
ghost use Rattle.dill_script.specs.Tokens.{tokens};
ghost use Rattle.relay_lines.specs.Spelled.{line_in};
ghost use Rattle.dill_calls.specs.CallTable.{is_built};
ghost use Rattle.relay_reader.specs.Parts.{byte_faults, word_faults, spelling_faults, limit_faults, behind_line, heading_faults, passing_faults};
ghost use Rattle.relay_reader.specs.Starts.{start_of};
ghost use Rattle.relay_reader.specs.Telling.{Tells};

use crate::blocks::Blocks;
use crate::fault::Fault;
use crate::judging::{judge_bytes, judge_spelling, judge_word};
use crate::starts::started_by;
use dill_base::{NoMemory, Octets};
use dill_script::{Block, Keyword, Program, Reason, Script, Statement, Statements};
use relay_lines::{Heading, Line, Token, Tokens, has_tokens, heading_of};
use std::alloc::Global;
use std::marker::Model;
use std::mem;

/// How many programs a script may have.
const MOST_PROGRAMS: usize = 256;

/// How many places one of them may have.
const MOST_PLACES: usize = 4096;

/// What the lines before a line gave.
#[derive(Debug, Drop)]
pub(crate) struct Context {
    /// One of them had tokens.
    begun: bool,
    whole: Script,
    /// The program that is open, where a block is.
    current: Program,
    /// How many places it has so far.
    place_count: usize,
    open_blocks: Blocks,
}

impl Model for Context {
    ghost use Rattle.std.specs.Prelude.{◌≡◌};
    ghost use Rattle.dill_script.specs.Contexts.{Context, places};

    ghost Value = { Context };

    ghost view = { λ c. record { begun = c.begun; whole = c.whole; current = c.current; open_blocks = c.open_blocks } };

    ghost invariant = { λ c. c.place_count ≡ places c.current.statements };
}

/// Whether the statement makes a call; the `end` of a loop does.
fn is_place(statement: &Statement) -> bool
    ensures { result ≡ is_place statement.now }
{
    match statement {
        Statement::EndLoop => true,
        Statement::Keep { .. } => true,
        Statement::Join { .. } => true,
        Statement::Call { .. } => true,
        _ => false,
    }
}

/// A program without statements.
fn bare(alloc: Global, name: Octets, params: u8) -> Program
    ensures { result ≡ bare name params }
{
    Program {
        name,
        params,
        statements: Statements::new(alloc),
    }
}

impl Context {
    /// Before the first line.
    pub(crate) fn new(alloc: Global) -> Context
        ensures { result ≡ opening }
    {
        Context {
            begun: false,
            whole: Script::new(alloc),
            current: bare(alloc, Octets::new(alloc), 0),
            place_count: 0,
            open_blocks: Blocks::new(alloc),
        }
    }

    /// Adds a statement to the open program.
    fn say(&mut self, statement: Statement) -> Result<(), NoMemory>
        requires { places self.old.current.statements ≤ 4096 }
        ensures { OnOk result (self.new ≡ saying self.old statement) }
    {
        let place_count = self.place_count + usize::from(is_place(&statement));
        match self.current.statements.push(statement) {
            Ok(()) => {
                self.place_count = place_count;
                Ok(())
            }
            Err(_) => Err(NoMemory),
        }
    }

    /// The open program is whole.
    fn end_program(&mut self, alloc: Global) -> Result<(), NoMemory>
        ensures { OnOk result (self.new ≡ ended self.old) }
    {
        let none = bare(alloc, Octets::new(alloc), 0);
        let program = mem::replace(&mut self.current, none);
        self.place_count = 0;
        self.whole.push(program)
    }

    /// Takes on an `end`, of the innermost block.
    fn end(&mut self, alloc: Global) -> Result<(), NoMemory>
        requires { places self.old.current.statements ≤ 4096 }
        ensures { OnOk result (self.new ≡ ending self.old self.old.open_blocks) }
    {
        match self.open_blocks.innermost() {
            Some(Block::If) => self.say(Statement::EndIf),
            Some(Block::Else) => self.say(Statement::EndIf),
            Some(Block::Loop) => self.say(Statement::EndLoop),
            _ => self.end_program(alloc),
        }
    }

    /// Takes on what a line spells, but for its block.
    fn add(&mut self, alloc: Global, line: Line) -> Result<(), NoMemory>
        requires { places self.old.current.statements ≤ 4096 }
        ensures { OnOk result (self.new ≡ adding self.old (Some (line_in line))) }
    {
        match line {
            Line::Opens(name, params) => {
                self.current = bare(alloc, name, params);
                self.place_count = 0;
                Ok(())
            }
            Line::Ends => self.end(alloc),
            Line::Says(statement) => self.say(statement),
        }
    }

    /// Whether a limit on programs, places, loops or blocks is passed.
    fn is_too_large(&self) -> bool
        ensures { result ≡ passes_limit self.now }
    {
        let whole = self.whole.as_slice().len();
        let programs = if self.open_blocks.is_empty() {
            whole
        } else {
            whole + 1
        };
        programs > MOST_PROGRAMS
            || self.place_count > MOST_PLACES
            || self.open_blocks.are_too_deep()
    }

    /// Takes on what a line of this keyword spells.
    fn go_behind(&mut self, alloc: Global, keyword: Keyword, line: Line) -> Result<(), NoMemory>
        requires { places self.old.current.statements ≤ 4096 }
        ensures { OnOk result
            (self.new ≡ behind_line self.old keyword (line_in line)) }
    {
        self.add(alloc, line)?;
        self.open_blocks.pass(keyword)
    }

    /// Takes on what a line of this keyword spells, where that passes no limit, and answers what it starts.
    fn go_on(
        &mut self,
        alloc: Global,
        keyword: Keyword,
        line: Line,
    ) -> Result<Option<(Octets, usize)>, Fault>
        requires { places self.old.current.statements ≤ 4096 }
        ensures { Tells result
            (first_reason (limit_faults (behind_line self.old keyword (line_in line))))
            (λ started. (self.new ≡ behind_line self.old keyword (line_in line)) × (started ≡ started_by (line_in line))) }
    {
        let Ok(started) = started_by(alloc, &line) else {
            return Err(Fault::NoMemory);
        };
        if self.go_behind(alloc, keyword, line).is_err() {
            return Err(Fault::NoMemory);
        }
        if self.is_too_large() {
            return Err(Fault::Against(Reason::TooLarge));
        }
        Ok(started)
    }

    /// The keyword of a line that may stand here.
    fn word_of(&self, heading: &Heading<'_>, last: bool) -> Result<Keyword, Fault>
        ensures { Tells result
            (first_reason
            (word_faults is_built self.now.open_blocks last heading.now.keyword))
            (λ keyword. heading.now.keyword ≡ Some keyword) }
    {
        judge_word(&self.open_blocks, heading.keyword(), last)
    }

    /// What the line spells, where it may stand behind the programs that are whole.
    fn spelled(&self, alloc: Global, heading: &Heading<'_>) -> Result<Line, Fault>
        ensures { Tells result
            (first_reason (spelling_faults self.now.whole (line_of heading.now)))
            (λ line. line_of heading.now ≡ Some (line_in line)) }
    {
        judge_spelling(alloc, self.whole.as_slice(), heading)
    }

    /// Reads a line that belongs to programs, and answers what it starts.
    fn read_heading(
        &mut self,
        alloc: Global,
        heading: &Heading<'_>,
        last: bool,
    ) -> Result<Option<(Octets, usize)>, Fault>
        requires { passes_limit self.old ≡ false }
        ensures { Tells result
            (first_reason (heading_faults is_built self.old last heading.now))
            (λ started. (self.new ≡ behind self.old (Some heading.now)) × (started ≡ option_and_then started_by (line_of heading.now))) }
    {
        let keyword = self.word_of(heading, last)?;
        let line = self.spelled(alloc, heading)?;
        self.go_on(alloc, keyword, line)
    }

    fn read_said(
        &mut self,
        alloc: Global,
        tokens: &[Token],
        last: bool,
    ) -> Result<Option<(Octets, usize)>, Fault>
        requires { passes_limit self.old ≡ false }
        ensures { Tells result
            (first_reason (heading_faults is_built self.old last (heading_of tokens.now)))
            (λ started. (self.new ≡ behind self.old (Some (heading_of tokens.now))) × (started ≡ option_and_then started_by (line_of (heading_of tokens.now)))) }
    {
        match heading_of(alloc, tokens) {
            Ok(heading) => self.read_heading(alloc, &heading, last),
            Err(_) => Err(Fault::NoMemory),
        }
    }

    /// Goes behind a line that belongs to no program.
    fn pass_over(&mut self, line: &[u8], last: bool) -> Result<(), Fault>
        ensures { Tells result
            (first_reason (passing_faults self.old.open_blocks last))
            (λ _. self.new ≡ record self.old { begun = self.old.begun || has_tokens line.now }) }
    {
        if last && !self.open_blocks.is_empty() {
            return Err(Fault::Against(Reason::BadBlock));
        }
        self.begun = self.begun || has_tokens(line);
        Ok(())
    }

    /// The tokens of a line whose bytes may stand as they do.
    fn tokens_of(&self, alloc: Global, line: &[u8]) -> Result<Tokens, Fault>
        ensures { Tells result
            (first_reason (byte_faults self.now.begun line.now))
            (λ found. tokens line.now ≡ Some found) }
    {
        judge_bytes(alloc, self.begun, line)
    }

    /// Whether the line belongs to programs: it has tokens, and isn't the first that has.
    fn is_said(&self, line: &[u8]) -> bool
        ensures { result ≡ (self.now.begun && has_tokens line.now) }
    {
        self.begun && has_tokens(line)
    }

    /// Reads a line, of which is told whether it is the last, and answers the name of the program that it starts and
    /// how many arguments it gives it. Where the line is refused, the context is of no more use.
    pub(crate) fn read(
        &mut self,
        alloc: Global,
        line: &[u8],
        last: bool,
    ) -> Result<Option<(Octets, usize)>, Fault>
        requires { passes_limit self.old ≡ false }
        ensures { Tells result
            (first_reason (faults is_built self.old last line.now))
            (λ started. (self.new ≡ after self.old line.now) × (passes_limit self.new ≡ false) × (started ≡ start_of line.now)) }
    {
        let found = self.tokens_of(alloc, line)?;
        if self.is_said(line) {
            return self.read_said(alloc, found.as_slice(), last);
        }
        self.pass_over(line, last)?;
        Ok(None)
    }

    /// The programs that are whole.
    pub(crate) fn into_whole(self) -> Script
        ensures { result ≡ self.whole }
    {
        self.whole
    }
}
