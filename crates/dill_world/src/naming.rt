ghost use Rattle.std.specs.Prelude.{◌≡◌, ◌+◌, ◌<◌, ◌≤◌, ◌^◌, ◌==◌, ◌∷◌, [], length, map, option_map, IfOk};
ghost use Rattle.std.specs.List.{list_any};
ghost use Rattle.dill_base.specs.Maps.{if_some};
ghost use Rattle.dill_rules.specs.Naming.{gifts_of, gifts, chosen, end_of_clause, taken_by, draws_of, bears, links};
ghost use Rattle.dill_rules.specs.Effects.{told};
ghost use Rattle.dill_rules.specs.Directions.{is_send, is_receive, kind_of_top, needs_top};
ghost use Rattle.dill_rules.specs.Kinds.{kind_needed};
ghost use Rattle.dill_rules.specs.Refusals.{is_accept, has_twice};
ghost use Rattle.dill_rules.specs.Taking.{is_on, is_alone_on};
ghost use Rattle.dill_world.specs.Tops.{is_top};

use dill_base::NoMemory;
use dill_calls::{Arg, Call, Clause, Word};
use dill_stack::Top;
use std::alloc::Global;

/// The arguments with which a call makes a coroutine, none of another call.
pub fn args_of(call: &Call) -> &[Arg]
    ensures { gifts_of result.now ≡ gifts call.now }
{
    match call {
        Call::Go(_, args) => args.as_slice(),
        Call::BundleGo(_, _, args) => args.as_slice(),
        _ => &[],
    }
}

/// The clauses of a choice, none of another call.
pub fn clauses_of(call: &Call) -> &[Clause]
    ensures { map end_of_clause result.now ≡ chosen call.now }
{
    match call {
        Call::Choose(_, clauses) => clauses.as_slice(),
        _ => &[],
    }
}

/// The end of a clause.
pub fn end_of_clause(clause: &Clause) -> u64
    ensures { result ≡ end_of_clause clause.now }
{
    match clause {
        Clause::Send(number, _) => *number,
        Clause::Recv(number, _) => *number,
    }
}

/// The one number whose owner the caller becomes; where there is none, these are its gifts.
pub fn one_taken(call: &Call) -> Option<u64>
    ensures { taken_by call.now ≡ if_some result (gifts call.now) (λ n. n ∷ []) }
{
    match call {
        Call::Hown(number) => Some(*number),
        Call::Hclose(number) => Some(*number),
        Call::TcpClose(number, _) => Some(*number),
        Call::PrefixAttach(number, _, _) => Some(*number),
        Call::SuffixAttach(number, _) => Some(*number),
        Call::TermAttach(number, _) => Some(*number),
        Call::PrefixDetach(number) => Some(*number),
        Call::SuffixDetach(number) => Some(*number),
        Call::TermDetach(number, _) => Some(*number),
        Call::HttpAttach(number) => Some(*number),
        Call::HttpDetach(number, _) => Some(*number),
        Call::WsAttachClient(number, _, _, _, _) => Some(*number),
        Call::WsAttachServer(number, _, _) => Some(*number),
        Call::WsAttachNohttp(number, _, _) => Some(*number),
        Call::WsDetach(number, _, _, _) => Some(*number),
        _ => None,
    }
}

/// How many of the arguments are gifts.
pub fn count_gifts(args: &[Arg]) -> usize
    ensures value { result ≡ length (gifts_of args.now) }
    ensures bound { result ≤ length args.now }
{
    let mut count = 0;
    for arg in args {
        if let Arg::Give(_) = arg {
            count += 1;
        }
    }
    count
}

/// Whether a number is one of the gifts.
pub fn is_given(args: &[Arg], number: u64) -> bool
    ensures { result ≡ list_any (λ n. n == number) (gifts_of args.now) }
{
    for arg in args {
        if let Arg::Give(given) = arg {
            if *given == number {
                return true;
            }
        }
    }
    false
}

/// Whether a number is given twice.
pub fn gives_twice(args: &[Arg]) -> bool
    ensures { result ≡ has_twice (gifts_of args.now) }
{
    for i in 0..args.len() {
        if let Arg::Give(number) = args[i] {
            if is_given(&args[i + 1..], number) {
                return true;
            }
        }
    }
    false
}

/// Whether a clause is at this end.
fn is_chosen(clauses: &[Clause], number: u64) -> bool
    ensures { result ≡ list_any (λ n. n == number) (map end_of_clause clauses.now) }
{
    for clause in clauses {
        if end_of_clause(clause) == number {
            return true;
        }
    }
    false
}

/// Whether the call is a call on this number.
pub fn is_on(number: u64, call: &Call) -> bool
    ensures { result ≡ is_on number call.now }
{
    let named = match call.handle() {
        None => false,
        Some(first) => first == number,
    };
    named || is_given(args_of(call), number) || is_chosen(clauses_of(call), number)
}

/// Whether the call lets no other call on its number while it is pending.
pub fn is_alone_on(number: u64, call: &Call) -> bool
    ensures { result ≡ is_alone_on number call.now }
{
    let word = call.word();
    word.takes() && is_on(number, call)
}

/// How many handle numbers a call draws.
pub fn draws_of(call: &Call) -> usize
    ensures { result ≡ draws_of call.now }
{
    match call {
        Call::Go(_, args) => 1 + count_gifts(args.as_slice()),
        Call::BundleGo(_, _, args) => count_gifts(args.as_slice()),
        Call::Chmake => 2,
        Call::Hmake(_, _) => 1,
        Call::Hown(_) => 1,
        Call::Bundle => 1,
        Call::TcpListen(_, _) => 1,
        Call::TcpAccept(_, _) => 1,
        Call::TcpConnect(_, _) => 1,
        Call::PrefixAttach(_, _, _) => 1,
        Call::SuffixAttach(_, _) => 1,
        Call::TermAttach(_, _) => 1,
        Call::PrefixDetach(_) => 1,
        Call::SuffixDetach(_) => 1,
        Call::TermDetach(_, _) => 1,
        Call::HttpAttach(_) => 1,
        Call::HttpDetach(_, _) => 1,
        Call::WsAttachClient(_, _, _, _, _) => 1,
        Call::WsAttachServer(_, _, _) => 1,
        Call::WsAttachNohttp(_, _, _) => 1,
        Call::WsDetach(_, _, _, _) => 1,
        _ => 0,
    }
}

/// The kind that a call needs of the handle that it names first.
pub fn kind_needed(call: &Call) -> Option<u64>
    ensures { result ≡ kind_needed call.now }
{
    match call {
        Call::Hquery(_, kind) => Some(*kind),
        Call::BundleGo(_, _, _) => Some(1),
        Call::BundleWait(_, _) => Some(1),
        Call::Chsend(_, _, _) => Some(2),
        Call::Chrecv(_, _, _) => Some(2),
        Call::Chdone(_) => Some(2),
        Call::TcpAccept(_, _) => Some(3),
        Call::TcpDone(_, _) => Some(4),
        Call::TcpClose(_, _) => Some(4),
        Call::Bsend(_, _, _) => Some(4),
        Call::Brecv(_, _, _) => Some(4),
        Call::PrefixAttach(_, _, _) => Some(4),
        Call::SuffixAttach(_, _) => Some(4),
        Call::HttpAttach(_) => Some(4),
        Call::WsAttachClient(_, _, _, _, _) => Some(4),
        Call::WsAttachServer(_, _, _) => Some(4),
        Call::WsAttachNohttp(_, _, _) => Some(4),
        Call::Msend(_, _, _) => Some(5),
        Call::Mrecv(_, _, _) => Some(5),
        Call::TermAttach(_, _) => Some(5),
        _ => None,
    }
}

/// What has to stand on top of its stack for a call that needs a layer of its own.
pub fn needed_top(call: &Call) -> Option<Top>
    ensures { needs_top call.now ≡ option_map is_top result }
{
    match call {
        Call::PrefixDetach(_) => Some(Top::Prefix),
        Call::SuffixDetach(_) => Some(Top::Suffix),
        Call::TermDone(_, _) => Some(Top::Term),
        Call::TermDetach(_, _) => Some(Top::Term),
        Call::HttpSendrequest(_, _, _, _) => Some(Top::Http),
        Call::HttpSendstatus(_, _, _, _) => Some(Top::Http),
        Call::HttpSendfield(_, _, _, _) => Some(Top::Http),
        Call::HttpRecvrequest(_, _) => Some(Top::Http),
        Call::HttpRecvstatus(_, _) => Some(Top::Http),
        Call::HttpRecvfield(_, _) => Some(Top::Http),
        Call::HttpDone(_, _) => Some(Top::Http),
        Call::HttpDetach(_, _) => Some(Top::Http),
        Call::WsDetach(_, _, _, _) => Some(Top::Ws),
        _ => None,
    }
}

/// Whether this layer stands on top; a stack without layers is none.
pub fn is_top(needed: Top, top: Top) -> bool
    ensures { result ≡ is_top needed top }
{
    match needed {
        Top::Bytes => false,
        Top::Prefix => matches!(top, Top::Prefix),
        Top::Suffix => matches!(top, Top::Suffix),
        Top::Term => matches!(top, Top::Term),
        Top::Http => matches!(top, Top::Http),
        Top::Ws => matches!(top, Top::Ws),
    }
}

/// The kind of a socket by what stands on top: 4 a byte socket, 5 a message socket, 6 an HTTP socket.
pub fn kind_of_top(top: Top) -> u64
    ensures { result ≡ kind_of_top top }
{
    match top {
        Top::Bytes => 4,
        Top::Http => 6,
        _ => 5,
    }
}

/// Whether the call makes a coroutine.
pub fn bears(word: Word) -> bool
    ensures { result ≡ bears word }
{
    matches!(word, Word::Go | Word::BundleGo)
}

/// Whether the call makes a link.
pub fn links(word: Word) -> bool
    ensures { result ≡ links word }
{
    matches!(word, Word::TcpListen | Word::TcpAccept | Word::TcpConnect)
}

/// Whether the call uses the sending direction of a socket.
pub fn is_send(word: Word) -> bool
    ensures { result ≡ is_send word }
{
    matches!(
        word,
        Word::TcpDone
            | Word::Bsend
            | Word::Msend
            | Word::TermDone
            | Word::HttpSendrequest
            | Word::HttpSendstatus
            | Word::HttpSendfield
            | Word::HttpDone
    )
}

/// Whether the call uses the receiving direction of a socket.
pub fn is_receive(word: Word) -> bool
    ensures { result ≡ is_receive word }
{
    matches!(
        word,
        Word::Brecv
            | Word::Mrecv
            | Word::HttpRecvrequest
            | Word::HttpRecvstatus
            | Word::HttpRecvfield
    )
}

/// Whether the call waits for a stream of a listener.
pub fn is_accept(word: Word) -> bool
    ensures { result ≡ is_accept word }
{
    matches!(word, Word::TcpAccept)
}

/// What a child is told, where the next number is this: the numbers that it is shown, and of its gifts the new ones.
pub fn told(alloc: Global, next: u64, args: &[Arg]) -> Result<Vec<u64>, NoMemory>
    requires { next + length (gifts_of args.now) < 2 ^ 64 }
    ensures { IfOk result (λ numbers. numbers.items ≡ told next args.now) }
{
    let mut numbers = Vec::new(alloc);
    let mut new = next;
    for arg in args {
        let number = match arg {
            Arg::Show(number) => *number,
            Arg::Give(_) => {
                let given = new;
                new += 1;
                given
            }
        };
        if numbers.push(number).is_err() {
            return Err(NoMemory);
        }
    }
    Ok(numbers)
}
