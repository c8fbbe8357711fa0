ghost use Rattle.std.specs.Prelude.{◌≡◌, ◌≤◌, ◌<◌, ◌++◌, length, slice_get, flat_map, filter_map, option_to_list, position, Some, IfSome, IfOk, OnOk, OnErr, true, false};
ghost use Rattle.std.specs.Rc.{rc_value};
ghost use Rattle.dill_calls.specs.CallTable.{build_takes_memory};
ghost use Rattle.dill_script.specs.Fitting.{is_call_word, is_form};
ghost use Rattle.dill_script.specs.Refusals.{has_name};
ghost use Rattle.dill_meaning.specs.Calls.{item_text, arg_of, clause_of, call_of};
ghost use Rattle.dill_meaning.specs.Values.{value_of, values_of};
ghost use Rattle.dill_meaning.specs.Views.{number_of_name};
ghost use Rattle.relay_body.specs.Placed.{num_of, bytes_of, wait_of, address_of, program_of, is_first, args_from, clauses_from, placed};
ghost use Rattle.relay_body.specs.Seen.{seen};

use crate::held::Held;
use dill_base::{Address, Deadline, NoMemory, Octets};
use dill_calls::{Arg, Args, Call, Clause, Clauses, Word};
use dill_script::{Form, Mode, Operand, Order, Program, Role};
use itoa::Buffer;

/// Where the program of this name stands, if there is one.
pub(crate) fn place_of(programs: &[Program], name: &[u8]) -> Option<usize>
    ensures place { result ≡ position (has_name name.now) programs.now }
    ensures within { IfSome result (λ place. place < length programs.now) }
{
    programs
        .iter()
        .position(|program| program.name.as_slice() == name)
}

/// An address, or one of zeros where the operand is of another kind.
fn address_at(list: &[Operand], place: usize) -> Address
    ensures { result ≡ address_of (slice_get list.now place) }
{
    match list.get(place) {
        Some(Operand::Address(address)) => *address,
        _ => Address {
            ip: [0; 4],
            port: 0,
        },
    }
}

/// Whether the operand is the first of the two words that may stand in its place.
fn is_first(list: &[Operand], place: usize) -> bool
    ensures { result ≡ is_first (slice_get list.now place) }
{
    match list.get(place) {
        Some(Operand::Order(order)) => matches!(order, Order::Big),
        Some(Operand::Mode(mode)) => matches!(mode, Mode::Text),
        Some(Operand::Role(role)) => matches!(role, Role::Client),
        _ => false,
    }
}

impl Held {
    /// The number of the program of this name, or how many programs there are.
    fn number_of_name(&self, name: &[u8]) -> u32
        requires { length (rc_value self.now.script) ≤ 256 }
        ensures { result ≡ number_of_name (seen self.now).script name.now }
    {
        let programs = self.script.as_slice();
        match place_of(programs, name) {
            Some(place) => place as u32,
            None => programs.len() as u32,
        }
    }

    /// A number, or 0 where the operand is of another kind.
    fn num_at(&self, list: &[Operand], place: usize) -> u64
        ensures { result ≡ num_of (seen self.now) (slice_get list.now place) }
    {
        match list.get(place) {
            Some(Operand::Num(value)) => self.num_value(*value),
            _ => 0,
        }
    }

    /// A copy of the bytes of an operand, or none where it is of another kind.
    fn octets_at(&self, list: &[Operand], place: usize) -> Result<Octets, NoMemory>
        ensures { IfOk result (λ bytes. bytes ≡ bytes_of (seen self.now) (slice_get list.now place)) }
    {
        match list.get(place) {
            Some(Operand::Bytes(value)) => Octets::from_slice(self.alloc, self.bytes_value(value)),
            _ => Ok(Octets::new(self.alloc)),
        }
    }

    /// Until when a call may wait, or never where the operand is of another kind.
    fn wait_at(&self, list: &[Operand], place: usize) -> Deadline
        ensures { result ≡ wait_of (seen self.now) (slice_get list.now place) }
    {
        match list.get(place) {
            Some(Operand::Wait(value)) => self.deadline_value(*value),
            _ => Deadline::Never,
        }
    }

    /// The number of a program, or 0 where the operand is of another kind.
    fn program_at(&self, list: &[Operand], place: usize) -> u32
        requires { length (rc_value self.now.script) ≤ 256 }
        ensures { result ≡ program_of (seen self.now) (slice_get list.now place) }
    {
        match list.get(place) {
            Some(Operand::Program(name)) => self.number_of_name(name.as_slice()),
            _ => 0,
        }
    }

    /// Adds an item to a text: bytes as they are, a number in decimal.
    fn push_item(&self, text: &mut Octets, item: &Operand) -> Result<(), NoMemory>
        ensures { OnOk result (text.new ≡ text.old ++ item_text (value_of (seen self.now) item.now)) }
    {
        match item {
            Operand::Bytes(value) => text.push_all(self.bytes_value(value)),
            Operand::Num(value) => {
                let mut buffer = Buffer::new();
                text.push_all(buffer.format(self.num_value(*value)).as_bytes())
            }
            _ => Ok(()),
        }
    }

    /// The text of all items, one after the other.
    fn text_of(&self, items: &[Operand]) -> Result<Octets, NoMemory>
        ensures { IfOk result (λ text. text ≡ flat_map item_text (values_of (seen self.now) items.now)) }
    {
        let mut text = Octets::new(self.alloc);
        for item in items {
            self.push_item(&mut text, item)?;
        }
        Ok(text)
    }

    /// Adds an argument: a number that is shown, or a handle that is given.
    fn push_arg(&self, args: &mut Args, arg: &Operand) -> Result<(), NoMemory>
        ensures { OnOk result (args.new ≡ args.old ++ option_to_list (arg_of (value_of (seen self.now) arg.now))) }
    {
        match arg {
            Operand::Num(value) => args.push(Arg::Show(self.num_value(*value))),
            Operand::Give(place) => args.push(Arg::Give(self.number(*place))),
            _ => Ok(()),
        }
    }

    /// All arguments in their order.
    fn args_of(&self, list: &[Operand]) -> Result<Args, NoMemory>
        ensures { IfOk result (λ args. args ≡ filter_map arg_of (values_of (seen self.now) list.now)) }
    {
        let mut args = Args::new(self.alloc);
        for arg in list {
            self.push_arg(&mut args, arg)?;
        }
        Ok(args)
    }

    /// The arguments from one operand on.
    fn args_from(&self, list: &[Operand], from: usize) -> Result<Args, NoMemory>
        ensures { IfOk result (λ args. args ≡ args_from (seen self.now) from list.now) }
    {
        if from < list.len() {
            return self.args_of(&list[from..]);
        }
        Ok(Args::new(self.alloc))
    }

    /// Adds a clause: a copy of an item that is sent at an end, or a size that is received there.
    fn push_clause(&self, clauses: &mut Clauses, clause: &Operand) -> Result<(), NoMemory>
        ensures { OnOk result (clauses.new ≡ clauses.old ++ option_to_list (clause_of (value_of (seen self.now) clause.now))) }
    {
        match clause {
            Operand::Send(end, item) => {
                let item = Octets::from_slice(self.alloc, self.bytes_value(item))?;
                clauses.push(Clause::Send(self.num_value(*end), item))
            }
            Operand::Recv(end, size) => {
                clauses.push(Clause::Recv(self.num_value(*end), self.num_value(*size)))
            }
            _ => Ok(()),
        }
    }

    /// All clauses in their order.
    fn clauses_of(&self, list: &[Operand]) -> Result<Clauses, NoMemory>
        ensures { IfOk result (λ clauses. clauses ≡ filter_map clause_of (values_of (seen self.now) list.now)) }
    {
        let mut clauses = Clauses::new(self.alloc);
        for clause in list {
            self.push_clause(&mut clauses, clause)?;
        }
        Ok(clauses)
    }

    /// The clauses from one operand on.
    fn clauses_from(&self, list: &[Operand], from: usize) -> Result<Clauses, NoMemory>
        ensures { IfOk result (λ clauses. clauses ≡ clauses_from (seen self.now) from list.now) }
    {
        if from < list.len() {
            return self.clauses_of(&list[from..]);
        }
        Ok(Clauses::new(self.alloc))
    }

    /// The call of a word whose call holds no bytes, arguments or clauses, so that no memory is taken for it.
    fn light_call(&self, word: Word, list: &[Operand]) -> Call
        requires call { is_call_word word ≡ true }
        requires light { build_takes_memory word ≡ false }
        ensures { call_of word (placed (seen self.now) word list.now) ≡ Some result }
    {
        let (handle, number) = (self.num_at(list, 0), self.num_at(list, 1));
        let wait = self.wait_at(list, 1);
        match word {
            Word::Yield => Call::Yield,
            Word::Msleep => Call::Msleep(self.wait_at(list, 0)),
            Word::Hmake => Call::Hmake(handle, number),
            Word::Hquery => Call::Hquery(handle, number),
            Word::Hown => Call::Hown(handle),
            Word::Hclose => Call::Hclose(handle),
            Word::Bundle => Call::Bundle,
            Word::BundleWait => Call::BundleWait(handle, wait),
            Word::Chmake => Call::Chmake,
            Word::Chrecv => Call::Chrecv(handle, number, self.wait_at(list, 2)),
            Word::Chdone => Call::Chdone(handle),
            Word::TcpListen => Call::TcpListen(address_at(list, 0), number),
            Word::TcpAccept => Call::TcpAccept(handle, wait),
            Word::TcpConnect => Call::TcpConnect(address_at(list, 0), wait),
            Word::TcpDone => Call::TcpDone(handle, wait),
            Word::TcpClose => Call::TcpClose(handle, wait),
            Word::Brecv => Call::Brecv(handle, number, self.wait_at(list, 2)),
            Word::Mrecv => Call::Mrecv(handle, number, self.wait_at(list, 2)),
            Word::PrefixAttach => Call::PrefixAttach(handle, number, is_first(list, 2)),
            Word::TermDone => Call::TermDone(handle, wait),
            Word::PrefixDetach => Call::PrefixDetach(handle),
            Word::SuffixDetach => Call::SuffixDetach(handle),
            Word::TermDetach => Call::TermDetach(handle, wait),
            Word::HttpAttach => Call::HttpAttach(handle),
            Word::HttpRecvrequest => Call::HttpRecvrequest(handle, wait),
            Word::HttpRecvstatus => Call::HttpRecvstatus(handle, wait),
            Word::HttpRecvfield => Call::HttpRecvfield(handle, wait),
            Word::HttpDone => Call::HttpDone(handle, wait),
            Word::HttpDetach => Call::HttpDetach(handle, wait),
            Word::WsAttachServer => {
                Call::WsAttachServer(handle, is_first(list, 1), self.wait_at(list, 2))
            }
            Word::WsAttachNohttp => {
                Call::WsAttachNohttp(handle, is_first(list, 1), is_first(list, 2))
            }
            // `now` is the one that is left.
            _ => Call::Now,
        }
    }

    /// The call of a word, with its operands in their places. Only one with bytes, arguments or clauses takes memory.
    fn placed_call(&self, word: Word, list: &[Operand]) -> Result<Call, NoMemory>
        requires few { length (rc_value self.now.script) ≤ 256 }
        requires call { is_call_word word ≡ true }
        ensures ok { IfOk result (λ call. call_of word (placed (seen self.now) word list.now) ≡ Some call) }
        ensures err { OnErr result (build_takes_memory word ≡ true) }
    {
        let (handle, number) = (self.num_at(list, 0), self.num_at(list, 1));
        Ok(match word {
            Word::Print => Call::Print(self.text_of(list)?),
            Word::Go => Call::Go(self.program_at(list, 0), self.args_from(list, 1)?),
            Word::BundleGo => {
                Call::BundleGo(handle, self.program_at(list, 1), self.args_from(list, 2)?)
            }
            Word::Choose => Call::Choose(self.wait_at(list, 0), self.clauses_from(list, 1)?),
            Word::Chsend => Call::Chsend(handle, self.octets_at(list, 1)?, self.wait_at(list, 2)),
            Word::Bsend => Call::Bsend(handle, self.octets_at(list, 1)?, self.wait_at(list, 2)),
            Word::Msend => Call::Msend(handle, self.octets_at(list, 1)?, self.wait_at(list, 2)),
            Word::SuffixAttach => Call::SuffixAttach(handle, self.octets_at(list, 1)?),
            Word::TermAttach => Call::TermAttach(handle, self.octets_at(list, 1)?),
            Word::HttpSendrequest => {
                let (command, resource) = (self.octets_at(list, 1)?, self.octets_at(list, 2)?);
                Call::HttpSendrequest(handle, command, resource, self.wait_at(list, 3))
            }
            Word::HttpSendstatus => {
                let reason = self.octets_at(list, 2)?;
                Call::HttpSendstatus(handle, number, reason, self.wait_at(list, 3))
            }
            Word::HttpSendfield => {
                let (name, value) = (self.octets_at(list, 1)?, self.octets_at(list, 2)?);
                Call::HttpSendfield(handle, name, value, self.wait_at(list, 3))
            }
            Word::WsAttachClient => {
                let (resource, host) = (self.octets_at(list, 2)?, self.octets_at(list, 3)?);
                let wait = self.wait_at(list, 4);
                Call::WsAttachClient(handle, is_first(list, 1), resource, host, wait)
            }
            Word::WsDetach => {
                Call::WsDetach(
                    handle,
                    number,
                    self.octets_at(list, 2)?,
                    self.wait_at(list, 3),
                )
            }
            _ => self.light_call(word, list),
        })
    }

    /// The call of a form whose operands fit its word, with what they are worth now. Only one with bytes, arguments
    /// or clauses takes memory.
    pub(crate) fn form_call(&self, form: &Form) -> Result<Call, NoMemory>
        requires few { length (rc_value self.now.script) ≤ 256 }
        requires fits { is_form form.now ≡ true }
        ensures ok { IfOk result (λ call. call_of form.now.word (values_of (seen self.now) form.now.operands) ≡ Some call) }
        ensures err { OnErr result (build_takes_memory form.now.word ≡ true) }
    {
        self.placed_call(form.word, form.operands.as_slice())
    }
}
