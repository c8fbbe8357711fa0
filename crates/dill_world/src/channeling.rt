ghost use Rattle.std.specs.Prelude.{◌≡◌, ◌≤◌, ◌++◌, length, map, true, [], ◌∷◌, IfOk, OnOk, OnErr};
ghost use Rattle.dill_base.specs.Maps.{if_some};
ghost use Rattle.dill_rules.specs.Answers as answers;
ghost use Rattle.dill_chan.specs.declared.meeting.Meeting.TheVariants as meetings;
ghost use Rattle.dill_rules.specs.Channeling as channeling;
ghost use Rattle.dill_rules.specs.World as worlds;
ghost use Rattle.dill_world.specs.Channeled.{enters_channel, waits_of};
ghost use Rattle.dill_world.specs.Store.{world_of};

use crate::answers::copy_whole;
use crate::naming::end_of_clause;
use crate::world::World;
use dill_base::{Errno, NoMemory, Octets};
use dill_calls::{Answer, Call, Clause, Clauses};
use dill_chan::{Meeting, Met, Wait, Want};
use std::alloc::Global;

/// The clause of this number, as its choice answers it.
fn as_choice(index: u8, answer: Answer) -> Answer
    ensures { result ≡ channeling.as_choice index answer }
{
    let index = u32::from(index);
    match answer {
        Answer::Bytes(bytes) => Answer::Chosen {
            index,
            fault: None,
            bytes: Some(bytes),
        },
        Answer::Fault(errno) => Answer::Chosen {
            index,
            fault: Some(errno),
            bytes: None,
        },
        _ => Answer::Chosen {
            index,
            fault: None,
            bytes: None,
        },
    }
}

/// A clause's answer, as the call answers it.
fn clause_answer(call: &Call, index: u8, answer: Answer) -> Answer
    ensures { result ≡ channeling.clause_answer call.now index answer }
{
    match call {
        Call::Choose(_, _) => as_choice(index, answer),
        _ => answer,
    }
}

/// A clause without the bytes that it sends.
fn bare_clause(alloc: Global, clause: &Clause) -> Clause
    ensures { result ≡ channeling.bare_clause clause.now }
{
    match clause {
        Clause::Send(number, _) => Clause::Send(*number, Octets::new(alloc)),
        Clause::Recv(number, size) => Clause::Recv(*number, *size),
    }
}

/// Clauses without the bytes that they send.
fn bare_clauses(alloc: Global, clauses: &[Clause]) -> Result<Clauses, NoMemory>
    ensures { IfOk result (λ bare. bare ≡ map channeling.bare_clause clauses.now) }
{
    let mut bare = Clauses::new(alloc);
    for clause in clauses {
        bare.push(bare_clause(alloc, clause))?;
    }
    Ok(bare)
}

/// A call at channels without the bytes that it sends.
fn without_bytes(alloc: Global, call: &Call) -> Result<Call, NoMemory>
    requires { enters_channel call.now ≡ true }
    ensures { IfOk result (λ bare. bare ≡ channeling.without_bytes call.now) }
{
    match call {
        Call::Chsend(number, _, deadline) => {
            Ok(Call::Chsend(*number, Octets::new(alloc), *deadline))
        }
        Call::Chrecv(number, size, deadline) => Ok(Call::Chrecv(*number, *size, *deadline)),
        Call::Choose(deadline, clauses) => {
            Ok(Call::Choose(*deadline, bare_clauses(alloc, clauses.as_slice())?))
        }
        _ => Err(NoMemory),
    }
}

/// What a clause wants at its end, with a copy of the bytes.
fn want_of(alloc: Global, clause: &Clause) -> Result<Want, NoMemory>
    ensures { IfOk result (λ want. want ≡ answers.want_of clause.now) }
{
    match clause {
        Clause::Send(_, bytes) => Ok(Want::Send(Octets::from_slice(alloc, bytes.as_slice())?)),
        Clause::Recv(_, size) => Ok(Want::Recv(*size)),
    }
}

impl<B> World<B> {
    /// A clause of a coroutine joins others, if its number names an end.
    fn add_clause(
        &self,
        who: u64,
        index: u8,
        number: u64,
        want: Want,
        waits: &mut Vec<Wait>,
    ) -> Result<(), NoMemory>
        ensures { OnOk result (waits.new.items ≡ if_some (answers.end_named (world_of self.now) number) waits.old.items (λ end. waits.old.items ++ record { who = who; clause = index; end = end; want = want } ∷ [])) }
    {
        let Some(end) = self.end_named(number) else {
            return Ok(());
        };
        let wait = Wait {
            who,
            clause: index,
            end,
            want,
        };
        match waits.push(wait) {
            Ok(()) => Ok(()),
            Err(_) => Err(NoMemory),
        }
    }

    /// The one clause of a call, as it waits at its end.
    fn one_wait(
        &self,
        alloc: Global,
        who: u64,
        number: u64,
        want: Want,
    ) -> Result<Vec<Wait>, NoMemory>
        ensures { IfOk result (λ waits. waits.items ≡ if_some (answers.end_named (world_of self.now) number) [] (λ end. record { who = who; clause = 0; end = end; want = want } ∷ [])) }
    {
        let mut waits = Vec::new(alloc);
        self.add_clause(who, 0, number, want, &mut waits)?;
        Ok(waits)
    }

    /// The clauses of a choice, as they wait at their ends.
    fn each_wait(&self, alloc: Global, who: u64, clauses: &[Clause]) -> Result<Vec<Wait>, NoMemory>
        requires { length clauses.now ≤ 16 }
        ensures { IfOk result (λ waits. waits.items ≡ waits_of (world_of self.now) who 0 clauses.now) }
    {
        let mut waits = Vec::new(alloc);
        let mut index: u8 = 0;
        for clause in clauses {
            let want = want_of(alloc, clause)?;
            self.add_clause(who, index, end_of_clause(clause), want, &mut waits)?;
            index += 1;
        }
        Ok(waits)
    }

    /// The clauses of a call, as they wait at their ends.
    fn waits_of(&self, alloc: Global, who: u64, call: &Call) -> Result<Vec<Wait>, NoMemory>
        requires { enters_channel call.now ≡ true }
        ensures { IfOk result (λ waits. waits.items ≡ waits_of (world_of self.now) who 0 (channeling.clauses_of call.now)) }
    {
        match call {
            Call::Chsend(number, bytes, _) => {
                let copy = Octets::from_slice(alloc, bytes.as_slice())?;
                self.one_wait(alloc, who, *number, Want::Send(copy))
            }
            Call::Chrecv(number, size, _) => self.one_wait(alloc, who, *number, Want::Recv(*size)),
            Call::Choose(_, clauses) => self.each_wait(alloc, who, clauses.as_slice()),
            _ => Ok(Vec::new(alloc)),
        }
    }
}

impl<B: Drop> World<B> {
    /// A coroutine that was pending is answered for one of its clauses.
    fn answer_clause(&mut self, who: u64, index: u8, answer: Answer, twin: Answer)
        requires { twin ≡ answer }
        ensures { world_of self.new ≡ channeling.answer_clause (world_of self.old) who index answer }
    {
        if let Some(call) = self.call_of(who) {
            let word = call.word();
            let given = clause_answer(call, index, answer);
            let told = clause_answer(call, index, twin);
            self.reply_twice(who, word, given, told);
        }
    }

    /// The caller's clause meets another's, and both are answered. Refused, nothing changes.
    fn answer_both(
        &mut self,
        alloc: Global,
        who: u64,
        call: &Call,
        index: u8,
        met: Met,
    ) -> Result<(), NoMemory>
        ensures ok { OnOk result (world_of self.new ≡ channeling.meet (world_of self.old) who call.now index (meetings.Met met)) }
        ensures err { OnErr result (world_of self.new ≡ world_of self.old) }
    {
        let Met {
            other,
            clause,
            answer,
            others,
        } = met;
        let twin = copy_whole(alloc, &answer)?;
        let others_twin = copy_whole(alloc, &others)?;
        self.answer_clause(other, clause, others, others_twin);
        let given = clause_answer(call, index, answer);
        let told = clause_answer(call, index, twin);
        self.reply_twice(who, call.word(), given, told);
        Ok(())
    }

    /// The caller's clause has its end, or meets another's, and both are answered. Refused, nothing changes.
    fn meet(
        &mut self,
        alloc: Global,
        who: u64,
        call: &Call,
        index: u8,
        meeting: Meeting,
    ) -> Result<(), NoMemory>
        ensures ok { OnOk result (world_of self.new ≡ channeling.meet (world_of self.old) who call.now index meeting) }
        ensures err { OnErr result (world_of self.new ≡ world_of self.old) }
    {
        match meeting {
            Meeting::Met(met) => self.answer_both(alloc, who, call, index, met),
            Meeting::Ended => {
                let given = clause_answer(call, index, Answer::Fault(Errno::Epipe));
                let told = clause_answer(call, index, Answer::Fault(Errno::Epipe));
                self.reply_twice(who, call.word(), given, told);
                Ok(())
            }
            Meeting::Waits => Ok(()),
        }
    }

    /// The clauses of a call wait at their ends, and have its bytes. Refused, nothing changes.
    fn wait_at_all(
        &mut self,
        alloc: Global,
        who: u64,
        call: &Call,
        waits: Vec<Wait>,
    ) -> Result<(), NoMemory>
        requires call { enters_channel call.now ≡ true }
        requires waits { waits.items ≡ waits_of (world_of self.old) who 0 (channeling.clauses_of call.now) }
        ensures ok { OnOk result (world_of self.new ≡ channeling.wait_all (worlds.pend (world_of self.old) who (channeling.without_bytes call.now)) who 0 (channeling.clauses_of call.now)) }
        ensures err { OnErr result (world_of self.new ≡ world_of self.old) }
    {
        if !self.channels.has_room_for(who) {
            return Err(NoMemory);
        }
        let bare = without_bytes(alloc, call)?;
        self.channels.wait_all(who, waits);
        self.pend(who, bare);
        Ok(())
    }

    /// A call that isn't refused enters its clauses at channels: the least that can be done decides, or all of them wait. Refused,
    /// nothing changes.
    pub fn enter_channel(&mut self, alloc: Global, who: u64, call: &Call) -> Result<(), NoMemory>
        requires { enters_channel call.now ≡ true }
        ensures ok { OnOk result (world_of self.new ≡ channeling.enter_channel (world_of self.old) who call.now) }
        ensures err { OnErr result (world_of self.new ≡ world_of self.old) }
    {
        let waits = self.waits_of(alloc, who, call)?;
        match self.channels.first_done(alloc, waits.as_slice())? {
            Some((index, meeting)) => self.meet(alloc, who, call, index, meeting),
            None => self.wait_at_all(alloc, who, call, waits),
        }
    }
}
