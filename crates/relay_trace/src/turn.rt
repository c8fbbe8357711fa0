ghost use Rattle.std.specs.Prelude.{◌≡◌, ◌≤◌, ◌+◌, ◌++◌, length, codes, decimal, OnOk, OnErr};
ghost use Rattle.std.specs.Io.KnownBytes.{Appends};
ghost use Rattle.dill_base.specs.Causes.{HasCause};
ghost use Rattle.dill_calls.specs.Words.{word_text};
ghost use Rattle.relay_trace.specs.Flows.{AppendsProper};
ghost use Rattle.relay_trace.specs.Lines.{line, answer_line, clause_text, end_line, text_line, ran_bytes, sized, hex_of};

use crate::short::Short;
use crate::{write_hex_line, write_line};
use dill_base::{Errno, Failed, Octets, Sink};
use dill_calls::{Answer, Ran, Word};

/// `1 brecv `
fn call_head(who: u64, word: Word) -> Short
    ensures text { result ≡ decimal who ++ codes " " ++ word_text word ++ codes " " }
    ensures len { length result ≤ 40 }
{
    let mut head = Short::new();
    head.number(who);
    head.put(b" ");
    head.put(word.name());
    head.put(b" ");
    head
}

/// `#3:`, before the bytes themselves.
fn put_size(head: &mut Short, bytes: &[u8])
    requires { length head.old ≤ 200 }
    ensures text { head.new ≡ head.old ++ codes "#" ++ decimal (length bytes.now) ++ codes ":" }
    ensures len { length head.new ≤ length head.old + 22 }
{
    head.put(b"#");
    head.number(bytes.len() as u64);
    head.put(b":");
}

/// A head, and then bytes.
fn write_sized<W: Sink>(head: &mut Short, bytes: &[u8], out: &mut W) -> Result<(), Failed>
    requires { length head.old ≤ 200 }
    ensures ok { OnOk result (Appends (W.told out.old) (W.told out.new) (line (head.old ++ sized bytes.now))) }
    ensures err { OnErr result (AppendsProper (W.told out.old) (W.told out.new) (line (head.old ++ sized bytes.now))) }
    ensures cause { HasCause (W.faults out.old) (W.faults out.new) result }
{
    put_size(head, bytes);
    write_hex_line(head.as_slice(), bytes, b"", b"", out)
}

/// A head, and then bytes and bytes again.
fn write_two<W: Sink>(
    head: &mut Short,
    first: &[u8],
    second: &[u8],
    out: &mut W,
) -> Result<(), Failed>
    requires { length head.old ≤ 200 }
    ensures ok { OnOk result (Appends (W.told out.old) (W.told out.new) (line (head.old ++ (sized first.now ++ codes " " ++ sized second.now)))) }
    ensures err { OnErr result (AppendsProper (W.told out.old) (W.told out.new) (line (head.old ++ (sized first.now ++ codes " " ++ sized second.now)))) }
    ensures cause { HasCause (W.faults out.old) (W.faults out.new) result }
{
    put_size(head, first);
    let mut middle = Short::new();
    middle.put(b" ");
    put_size(&mut middle, second);
    write_hex_line(head.as_slice(), first, middle.as_slice(), second, out)
}

/// A head, and then what became of the clause.
fn write_clause<W: Sink>(
    head: &mut Short,
    fault: Option<Errno>,
    bytes: &Option<Octets>,
    out: &mut W,
) -> Result<(), Failed>
    requires { length head.old ≤ 200 }
    ensures ok { OnOk result (Appends (W.told out.old) (W.told out.new) (line (head.old ++ clause_text fault bytes.now))) }
    ensures err { OnErr result (AppendsProper (W.told out.old) (W.told out.new) (line (head.old ++ clause_text fault bytes.now))) }
    ensures cause { HasCause (W.faults out.old) (W.faults out.new) result }
{
    if let Some(errno) = fault {
        head.put(errno.name());
        return write_line(head.as_slice(), out);
    }
    match bytes {
        None => {
            head.put(b"=0");
            write_line(head.as_slice(), out)
        }
        Some(bytes) => write_sized(head, bytes.as_slice(), out),
    }
}

fn write_answer<W: Sink>(who: u64, word: Word, given: &Answer, out: &mut W) -> Result<(), Failed>
    ensures ok { OnOk result (Appends (W.told out.old) (W.told out.new) (answer_line who word given.now)) }
    ensures err { OnErr result (AppendsProper (W.told out.old) (W.told out.new) (answer_line who word given.now)) }
    ensures cause { HasCause (W.faults out.old) (W.faults out.new) result }
{
    let mut head = call_head(who, word);
    match given {
        Answer::Number(n) => {
            head.put(b"=");
            head.number(*n);
            write_line(head.as_slice(), out)
        }
        Answer::Pair(first, second) => {
            head.put(b"=");
            head.number(*first);
            head.put(b",");
            head.number(*second);
            write_line(head.as_slice(), out)
        }
        Answer::Bytes(bytes) => write_sized(&mut head, bytes.as_slice(), out),
        Answer::Two(first, second) => write_two(
            &mut head,
            first.as_slice(),
            second.as_slice(),
            out,
        ),
        Answer::Coded(code, bytes) => {
            head.put(b"=");
            head.number(u64::from(*code));
            head.put(b" ");
            write_sized(&mut head, bytes.as_slice(), out)
        }
        Answer::Chosen {
            index,
            fault,
            bytes,
        } => {
            head.put(b"@");
            head.number(u64::from(*index));
            head.put(b" ");
            write_clause(&mut head, *fault, bytes, out)
        }
        Answer::Fault(errno) => {
            head.put(errno.name());
            write_line(head.as_slice(), out)
        }
    }
}

fn end_short(who: u64, outcome: Option<Errno>) -> Short
    ensures { line result ≡ end_line who (Some outcome) }
{
    let mut text = Short::new();
    text.number(who);
    text.put(b" end ");
    match outcome {
        None => text.put(b"ok"),
        Some(errno) => text.put(errno.name()),
    }
    text
}

fn write_end<W: Sink>(who: u64, end: Option<Option<Errno>>, out: &mut W) -> Result<(), Failed>
    ensures ok { OnOk result (Appends (W.told out.old) (W.told out.new) (end_line who end)) }
    ensures err { OnErr result (AppendsProper (W.told out.old) (W.told out.new) (end_line who end)) }
    ensures cause { HasCause (W.faults out.old) (W.faults out.new) result }
{
    match end {
        None => Ok(()),
        Some(outcome) => write_line(end_short(who, outcome).as_slice(), out),
    }
}

fn write_text<W: Sink>(text: &Option<Octets>, out: &mut W) -> Result<(), Failed>
    ensures ok { OnOk result (Appends (W.told out.old) (W.told out.new) (text_line text.now)) }
    ensures err { OnErr result (AppendsProper (W.told out.old) (W.told out.new) (text_line text.now)) }
    ensures cause { HasCause (W.faults out.old) (W.faults out.new) result }
{
    match text {
        None => Ok(()),
        Some(text) => write_line(text.as_slice(), out),
    }
}

fn write_traced<W: Sink>(ran: &Ran, out: &mut W) -> Result<(), Failed>
    ensures ok { OnOk result (Appends (W.told out.old) (W.told out.new) (answer_line ran.now.who ran.now.word ran.now.given ++ end_line ran.now.who ran.now.end)) }
    ensures err { OnErr result (AppendsProper (W.told out.old) (W.told out.new) (answer_line ran.now.who ran.now.word ran.now.given ++ end_line ran.now.who ran.now.end)) }
    ensures cause { HasCause (W.faults out.old) (W.faults out.new) result }
{
    write_answer(ran.who, ran.word, &ran.given, out)?;
    write_end(ran.who, ran.end, out)
}

/// Writes the lines of a turn: its answer, its end and the text that it prints in a trace, else the text alone.
pub fn write_ran<W: Sink>(ran: &Ran, traced: bool, out: &mut W) -> Result<(), Failed>
    ensures ok { OnOk result (Appends (W.told out.old) (W.told out.new) (ran_bytes traced ran.now)) }
    ensures err { OnErr result (AppendsProper (W.told out.old) (W.told out.new) (ran_bytes traced ran.now)) }
    ensures cause { HasCause (W.faults out.old) (W.faults out.new) result }
{
    if traced {
        write_traced(ran, out)?;
        return write_text(&ran.text, out);
    }
    write_text(&ran.text, out)
}
