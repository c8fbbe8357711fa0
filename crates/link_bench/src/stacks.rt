ghost use Rattle.std.specs.Prelude.{◌≡◌, true, [], IfOk};
ghost use Rattle.link_bench.specs.Ready.{GoesOn, IsReady, IsReserved, IsSet};
ghost use Rattle.link_bench.specs.declared.stacks.Look.TheVariants as look;
ghost use Rattle.dill_stack.specs.declared.want.ReadOut.TheVariants as out;

use crate::counting::Counter;
use dill_base::Octets;
use dill_calls::Answer;
use dill_frames::PrefixForm;
use dill_stack::{AnswerRoom, Layer, ReadOut, Stack, StackFault, Top, Want};
use dill_ws::Side;
use std::alloc::Global;

/// The most bytes that come at once.
const PIECE: usize = 4_096;

/// The layer of both stacks.
#[derive(Clone, Copy)]
pub enum Kind {
    Prefix,
    Suffix,
    Ws,
}

/// What a look for a message gives: how many bytes it has, nothing whole yet, or a refusal.
#[derive(Clone, Copy)]
enum Look {
    Message(usize),
    Short,
    Refused,
}

/// Puts the layer on a byte socket.
fn put(alloc: Global, stack: &mut Stack, kind: Kind, side: Side) -> Result<(), StackFault>
    requires { stack.old.held.layers ≡ [] }
{
    match kind {
        Kind::Prefix => stack.attach(Layer::Prefix(PrefixForm {
            size: 4,
            little: false,
        })),
        Kind::Suffix => match Octets::from_slice(alloc, b"\r\n") {
            Ok(end) => stack.attach(Layer::Suffix(end)),
            Err(_) => Err(StackFault::NoMemory),
        },
        Kind::Ws => stack.attach(Layer::Ws { side, text: true }),
    }
}

/// What an answer is as a look.
fn look_of(said: &ReadOut) -> Look
    ensures { result ≡ look.Short → said.now ≡ out.Need }
{
    match said {
        ReadOut::Given(Answer::Bytes(message)) => Look::Message(message.as_slice().len()),
        ReadOut::Need => Look::Short,
        _ => Look::Refused,
    }
}

/// A stack that takes messages of at most so many bytes, with room for the next one.
#[derive(Drop)]
struct Taker {
    alloc: Global,
    stack: Stack,
    limit: usize,
    room: AnswerRoom,
}

impl Taker {
    /// What its stack needs for messages of this size is reserved once.
    fn new(alloc: Global, mut stack: Stack, limit: usize) -> Result<Taker, StackFault>
        ensures { IfOk result IsSet }
    {
        if stack.reserve(Want::Message(limit)).is_err() {
            return Err(StackFault::NoMemory);
        }
        match AnswerRoom::new(alloc, Want::Message(limit)) {
            Ok(room) => Ok(Taker {
                alloc,
                stack,
                limit,
                room,
            }),
            Err(_) => Err(StackFault::NoMemory),
        }
    }

    /// Looks for a message. One that came has taken the room.
    fn look(&mut self, keys: &mut Counter) -> Look
        requires { IsSet self.old }
        ensures reserved { IsReserved self.new }
        ensures short { result ≡ look.Short → IsReady self.new }
    {
        match self.stack.top() {
            Top::Bytes => Look::Refused,
            Top::Http => Look::Refused,
            _ => {
                let said = self
                    .stack
                    .read(Want::Message(self.limit), &mut self.room, keys);
                look_of(&said)
            }
        }
    }

    /// Looks for a message, and makes new room where one came.
    fn next(&mut self, keys: &mut Counter) -> Look
        requires { IsSet self.old }
        ensures { GoesOn result self.new }
    {
        match self.look(keys) {
            Look::Message(count) => match AnswerRoom::new(self.alloc, Want::Message(self.limit)) {
                Ok(room) => {
                    self.room = room;
                    Look::Message(count)
                }
                Err(_) => Look::Refused,
            },
            Look::Short => Look::Short,
            Look::Refused => Look::Refused,
        }
    }

    /// Reads the messages that are there, and adds how many bytes they have. Whether none was refused.
    fn drain(&mut self, keys: &mut Counter, bytes: &mut usize) -> bool
        requires { IsSet self.old }
        ensures { result ≡ true → IsReady self.new }
    {
        for _ in 0..1_000u64 {
            match self.next(keys) {
                Look::Message(count) => *bytes = bytes.saturating_add(count),
                Look::Short => return true,
                Look::Refused => return false,
            }
        }
        false
    }
}

/// Passes a piece of what is to be sent, and reads what is there then.
fn passed(from: &mut Stack, to: &mut Taker, keys: &mut Counter, bytes: &mut usize) -> bool
    requires { IsReady to.old }
    ensures { result ≡ true → IsReady to.new }
{
    let count = from.offered().len().min(PIECE);
    to.stack.came(&from.offered()[..count]);
    from.took(count);
    to.drain(keys, bytes)
}

/// Passes all that is to be sent. Whether this many bytes of messages came.
fn sent(from: &mut Stack, to: &mut Taker, size: usize, keys: &mut Counter) -> bool
    requires { IsReady to.old }
    ensures { result ≡ true → IsReady to.new }
{
    let mut bytes = 0usize;
    for _ in 0..1_000_000u64 {
        if from.is_sent() {
            return bytes == size;
        }
        if !passed(from, to, keys, &mut bytes) {
            return false;
        }
    }
    false
}

/// Passes a message from one stack to the other. Whether it came whole.
fn goes(from: &mut Stack, to: &mut Taker, message: &[u8], keys: &mut Counter) -> bool
    requires { IsReady to.old }
    ensures { result ≡ true → IsReady to.new }
{
    if !from.is_sent() || from.frame(message, keys).is_err() {
        return false;
    }
    sent(from, to, message.len(), keys)
}

/// Passes the message so many times, with new room for each that came. How often it came whole, until it didn't.
fn times(from: &mut Stack, to: &mut Taker, message: &[u8], rounds: u64) -> u64
    requires { IsSet to.old }
{
    let mut keys = Counter(0);
    let mut bytes = 0usize;
    if !to.drain(&mut keys, &mut bytes) {
        return 0;
    }
    let mut went = 0u64;
    for _ in 0..rounds {
        if !goes(from, to, message, &mut keys) {
            return went;
        }
        went = went.saturating_add(1);
    }
    went
}

/// How many of so many messages came whole through two stacks with this layer, the sending one a client's.
pub fn messages(alloc: Global, kind: Kind, size: u64, rounds: u64) -> Result<u64, StackFault> {
    let (Ok(mut from), Ok(mut to)) = (Stack::new(alloc), Stack::new(alloc)) else {
        return Err(StackFault::NoMemory);
    };
    put(alloc, &mut from, kind, Side::Client)?;
    put(alloc, &mut to, kind, Side::Server)?;
    let buf = [b'a'; 65_536];
    let size = size.min(65_536) as usize;
    let mut taker = Taker::new(alloc, to, size)?;
    Ok(times(&mut from, &mut taker, &buf[..size], rounds))
}
