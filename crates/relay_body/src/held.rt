ghost use Rattle.std.specs.Prelude.{◌≡◌, ◌≤◌, ◌-◌, ◌++◌, length, replicate, slice_get, Some, None, MatchOption, IfOk};
ghost use Rattle.std.specs.Rc.{rc_value};
ghost use Rattle.dill_meaning.specs.Views.{beginning, statements_in, statements_of, ahead, pending, number_in, bytes_in, with_number, with_bytes};
ghost use Rattle.relay_body.specs.Seen.{seen};

use crate::rounds::Rounds;
use crate::texts::Texts;
use dill_base::{Errno, NoMemory, Octets};
use dill_script::{Script, Statement};
use std::alloc::Global;
use std::rc::Rc;

/// What a coroutine of a script's program holds.
#[derive(Drop)]
pub(crate) struct Held {
    pub alloc: Global,
    pub script: Rc<Script>,
    pub program: u32,
    /// How many statements are behind it.
    pub passed: usize,
    pub numbers: [u64; 16],
    pub texts: Texts,
    pub err: Option<Errno>,
    pub rounds: Rounds,
    /// The first errno that it was brought to `finally` or to its end by.
    pub outcome: Option<Errno>,
}

/// The statements of a program that may not be there.
fn statements_in(script: &Script, program: u32) -> &[Statement]
    ensures { result.now ≡ statements_in (slice_get script.now program) }
{
    match script.as_slice().get(program as usize) {
        Some(program) => program.statements.as_slice(),
        None => &[],
    }
}

/// The arguments in the first registers, and 0 in the others.
fn registers_of(args: &[u64]) -> [u64; 16]
    requires { length args.now ≤ 16 }
    ensures { result ≡ args.now ++ replicate (16 - length args.now) 0 }
{
    let mut numbers = [0; 16];
    numbers[..args.len()].copy_from_slice(args);
    numbers
}

impl Held {
    /// A coroutine of this program before its first turn.
    pub(crate) fn new(
        alloc: Global,
        script: Rc<Script>,
        program: u32,
        args: &[u64],
    ) -> Result<Held, NoMemory>
        requires { length args.now ≤ 16 }
        ensures { IfOk result (λ held. seen held ≡ beginning (rc_value script) program args.now) }
    {
        let texts = Texts::new(alloc)?;
        Ok(Held {
            alloc,
            script,
            program,
            passed: 0,
            numbers: registers_of(args),
            texts,
            err: None,
            rounds: Rounds::new(),
            outcome: None,
        })
    }

    /// The statements of its program.
    pub(crate) fn statements(&self) -> &[Statement]
        ensures { result.now ≡ statements_of (seen self.now) }
    {
        statements_in(&self.script, self.program)
    }

    /// The statements that are ahead.
    pub(crate) fn ahead(&self) -> &[Statement]
        ensures { result.now ≡ ahead (seen self.now) }
    {
        let list = self.statements();
        if self.passed < list.len() {
            return &list[self.passed..];
        }
        &[]
    }

    /// The last of the statements that are behind it.
    pub(crate) fn pending(&self) -> Option<&Statement>
        ensures { MatchOption result (pending (seen self.now) ≡ None) (λ s. pending (seen self.now) ≡ Some s.now) }
    {
        if self.passed == 0 {
            return None;
        }
        self.statements().get(self.passed - 1)
    }

    /// What a number register holds.
    pub(crate) fn number(&self, place: u8) -> u64
        ensures { result ≡ number_in (seen self.now) place }
    {
        match self.numbers.get(usize::from(place)) {
            Some(number) => *number,
            None => 0,
        }
    }

    /// What a byte register holds.
    pub(crate) fn bytes(&self, place: u8) -> &[u8]
        ensures { result.now ≡ bytes_in (seen self.now) place }
    {
        self.texts.get(place)
    }

    /// Another number in a register.
    pub(crate) fn set_number(&mut self, place: u8, value: u64)
        ensures { seen self.new ≡ with_number (seen self.old) place value }
    {
        if usize::from(place) < self.numbers.len() {
            self.numbers[usize::from(place)] = value;
        }
    }

    /// Other bytes in a register.
    pub(crate) fn set_bytes(&mut self, place: u8, value: Octets)
        ensures { seen self.new ≡ with_bytes (seen self.old) place value }
    {
        self.texts.set(place, value);
    }
}
