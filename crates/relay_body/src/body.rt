ghost use Rattle.std.specs.Prelude.{◌≡◌, ◌≤◌, length, true, IfOk};
ghost use Rattle.std.specs.Rc.{rc_value};
ghost use Rattle.dill_calls.specs.Program.{Turns};
ghost use Rattle.dill_script.specs.Contexts.{is_place, places};
ghost use Rattle.dill_meaning.specs.Views.{main_of};
ghost use Rattle.relay_body.specs.Running.{is_runnable, running};

use crate::calls::place_of;
use crate::held::Held;
use dill_base::NoMemory;
use dill_calls::{Answer, Body, Next};
use dill_plain::PlainBody;
use dill_script::{Script, Statement};
use std::alloc::Global;
use std::marker::Model;
use std::rc::Rc;

/// A coroutine that runs a program of a script. It holds the script, its place, its registers and the loops that it has
/// entered.
#[derive(Drop)]
pub struct ScriptBody {
    held: Held,
}

impl Model for ScriptBody {
    ghost use Rattle.dill_meaning.specs.Views.{ScriptView};
    ghost use Rattle.std.specs.Prelude.{◌≡◌, true};
    ghost use Rattle.relay_body.specs.Running.{is_running};
    ghost use Rattle.relay_body.specs.Seen.{seen};

    ghost Value = { ScriptView };

    ghost view = { λ b. seen b.held };

    ghost invariant = { λ b. is_running (seen b.held) ≡ true };
}

/// Whether a statement makes a call.
fn is_place(statement: &Statement) -> bool
    ensures { result ≡ is_place statement.now }
{
    matches!(
        statement,
        Statement::EndLoop
            | Statement::Keep { .. }
            | Statement::Join { .. }
            | Statement::Call { .. }
    )
}

/// How many statements make a call.
fn places(list: &[Statement]) -> u64
    ensures { result ≡ places list.now }
{
    let mut count = 0;
    for statement in list {
        if is_place(statement) {
            count += 1;
        }
    }
    count
}

impl ScriptBody {
    /// `main` of a script before its first turn. The script is within its limits, its blocks are nested, and its calls are
    /// formed and plain.
    pub fn first(alloc: Global, script: Rc<Script>) -> Result<ScriptBody, NoMemory>
        requires { is_runnable (rc_value script) ≡ true }
        ensures { IfOk result (λ body. body ≡ main_of (rc_value script)) }
    {
        let programs = script.as_slice();
        let program = match place_of(programs, b"main") {
            Some(place) => place as u32,
            None => programs.len() as u32,
        };
        let held = Held::new(alloc, script, program, &[])?;
        Ok(ScriptBody { held })
    }
}

impl Body for ScriptBody {
    ghost use Rattle.relay_body.specs.Lawful.{running_lawful};

    ghost means = { running };

    fn turn(&mut self, given: Answer) -> Next {
        self.held.turn(given)
    }

    fn knows(&self, program: u32, args: usize) -> bool {
        match self.held.script.as_slice().get(program as usize) {
            Some(found) => usize::from(found.params) == args,
            None => false,
        }
    }

    fn child(&self, program: u32, args: &[u64]) -> Result<Self, NoMemory> {
        let Ok(script) = self.held.script.clone() else {
            return Err(NoMemory);
        };
        let held = Held::new(self.held.alloc, script, program, args)?;
        Ok(ScriptBody { held })
    }

    fn left(&self) -> u64 {
        places(self.held.ahead()) + 1
    }

    fn most(&self) -> u64 {
        places(self.held.statements()) + 1
    }

    ghost lawful = { running_lawful };
}

impl PlainBody for ScriptBody {
    ghost use Rattle.relay_body.specs.Lawful.{running_plain};

    ghost plain = { running_plain };
}
