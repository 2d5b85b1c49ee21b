//! Writing the lines of a run: they gather in a text, and a `write` has many.
ghost use Rattle.std.specs.Prelude.{flat_map, ◌≡◌, ◌≢◌, ◌++◌, ◌∷◌, [], OnOk, OnErr};
ghost use Rattle.std.specs.Io.KnownBytes.{Appends};
ghost use Rattle.cg_io.specs.Causes.{HasCause, AppendsFront};
ghost use Rattle.cg_graph.specs.Member.{Includes};
ghost use Rattle.cg_machine.specs.declared.event.Event.{Event as AnyEvent};
ghost use Rattle.cg_machine.specs.Lines.{line, HasRoom, IsPrintable};
ghost use Rattle.cg_interp.specs.declared.turned.Turned.TheVariants as turned_of;
ghost use Rattle.cg_interp.specs.Running.{Gathers, events_told, standing_after};

use crate::turned::{Standing, Turned};
use cg_io::{Sink, WriteFailed};
use cg_machine::{Event, LONGEST_LINE, LineText, push_line};
use cg_value::Names;

/// Writes all that has gathered.
fn write_text<K: Sink>(text: &mut LineText, sink: &mut K) -> Result<(), WriteFailed>
    ensures ok { OnOk result (Appends (K.written sink.old) (K.written sink.new) text.old.bytes) }
    ensures err { OnErr result (AppendsFront (K.written sink.old) (K.written sink.new)
        text.old.bytes) }
    ensures cause { HasCause (K.faults sink.old) (K.faults sink.new) result }
    ensures all { text.new.bytes ≡ [] }
{
    let answer = sink.write(text.as_str().as_bytes());
    text.clear();
    answer
}

/// Writes all that has gathered, if there is no room for one more line.
fn make_room<K: Sink>(text: &mut LineText, sink: &mut K) -> Result<(), WriteFailed>
    ensures ok { OnOk result (Gathers (K.written sink.old) (K.written sink.new) text.old.bytes
        text.new.bytes []) }
    ensures room { OnOk result (HasRoom text.new.bytes) }
    ensures err { OnErr result (AppendsFront (K.written sink.old) (K.written sink.new)
        text.old.bytes) }
    ensures cause { HasCause (K.faults sink.old) (K.faults sink.new) result }
{
    if text.remaining_capacity() >= LONGEST_LINE {
        return Ok(());
    }
    write_text(text, sink)
}

/// Gathers the line of an event.
fn write_event<K: Sink>(
    event: &Event,
    names: &Names,
    text: &mut LineText,
    sink: &mut K,
) -> Result<(), WriteFailed>
    requires { IsPrintable names.now event.now }
    ensures ok { OnOk result (Gathers (K.written sink.old) (K.written sink.new) text.old.bytes
        text.new.bytes (flat_map (line names.now) (event.now ∷ []))) }
    ensures err { OnErr result (AppendsFront (K.written sink.old) (K.written sink.new)
        (text.old.bytes ++ flat_map (line names.now) (event.now ∷ []))) }
    ensures cause { HasCause (K.faults sink.old) (K.faults sink.new) result }
{
    make_room(text, sink)?;
    push_line(text, event, names);
    Ok(())
}

/// Gathers lines, until a `write` fails.
fn write_events<K: Sink>(
    events: &[Event],
    names: &Names,
    text: &mut LineText,
    sink: &mut K,
) -> Result<(), WriteFailed>
    requires { (event : AnyEvent) → Includes events.now event → IsPrintable names.now event }
    ensures ok { OnOk result (Gathers (K.written sink.old) (K.written sink.new) text.old.bytes
        text.new.bytes (flat_map (line names.now) events.now)) }
    ensures err { OnErr result (AppendsFront (K.written sink.old) (K.written sink.new)
        (text.old.bytes ++ flat_map (line names.now) events.now)) }
    ensures cause { HasCause (K.faults sink.old) (K.faults sink.new) result }
{
    'events: for event in events.iter() {
        write_event(event, names, text, sink)?;
    }
    Ok(())
}

/// Gathers the lines of the last step of a run that ends with the count of what is left.
fn write_left<K: Sink>(
    number: u64,
    names: &Names,
    text: &mut LineText,
    sink: &mut K,
) -> Result<(), WriteFailed>
    requires { (event : AnyEvent) → Includes (events_told (turned_of.Left number)) event
        → IsPrintable names.now event }
    ensures ok { OnOk result (Gathers (K.written sink.old) (K.written sink.new) text.old.bytes
        text.new.bytes (flat_map (line names.now) (events_told (turned_of.Left number)))) }
    ensures err { OnErr result (AppendsFront (K.written sink.old) (K.written sink.new)
        (text.old.bytes ++ flat_map (line names.now) (events_told (turned_of.Left number)))) }
    ensures cause { HasCause (K.faults sink.old) (K.faults sink.new) result }
{
    write_events(&[Event::Left(number), Event::End], names, text, sink)
}

/// Gathers the lines of a turn, if any.
fn write_answer<K: Sink>(
    answer: &Turned,
    names: &Names,
    text: &mut LineText,
    sink: &mut K,
) -> Result<(), WriteFailed>
    requires { (event : AnyEvent) → Includes (events_told answer.now) event → IsPrintable names.now
        event }
    ensures ok { OnOk result (Gathers (K.written sink.old) (K.written sink.new) text.old.bytes
        text.new.bytes (flat_map (line names.now) (events_told answer.now))) }
    ensures err { OnErr result (AppendsFront (K.written sink.old) (K.written sink.new)
        (text.old.bytes ++ flat_map (line names.now) (events_told answer.now))) }
    ensures cause { HasCause (K.faults sink.old) (K.faults sink.new) result }
{
    match answer {
        Turned::Quiet => Ok(()),
        Turned::Line(event) => write_event(event, names, text, sink),
        Turned::Lines(lines) => write_events(lines.as_slice(), names, text, sink),
        Turned::Ended => write_event(&Event::End, names, text, sink),
        Turned::Left(number) => write_left(*number, names, text, sink),
        Turned::Spent => write_event(&Event::BudgetSpent, names, text, sink),
    }
}

/// Gathers the lines that waited in a turn, and then those of its answer.
fn gather_turn<K: Sink>(
    waits: &Vec<Event>,
    answer: &Turned,
    names: &Names,
    text: &mut LineText,
    sink: &mut K,
) -> Result<(), WriteFailed>
    requires { (event : AnyEvent) → Includes (waits.now.items ++ events_told answer.now) event
        → IsPrintable names.now event }
    ensures ok { OnOk result (Gathers (K.written sink.old) (K.written sink.new) text.old.bytes
        text.new.bytes (flat_map (line names.now) (waits.now.items ++ events_told answer.now))) }
    ensures err { OnErr result (AppendsFront (K.written sink.old) (K.written sink.new)
        (text.old.bytes ++ flat_map (line names.now) (waits.now.items ++ events_told answer.now))) }
    ensures cause { HasCause (K.faults sink.old) (K.faults sink.new) result }
{
    write_events(waits.as_slice(), names, text, sink)?;
    write_answer(answer, names, text, sink)
}

/// Gathers the lines of a turn; if it has ended the run, writes all that has gathered.
pub fn write_turn<K: Sink>(
    waits: &Vec<Event>,
    answer: &Turned,
    names: &Names,
    text: &mut LineText,
    sink: &mut K,
) -> Result<(), WriteFailed>
    requires { (event : AnyEvent) → Includes (waits.now.items ++ events_told answer.now) event
        → IsPrintable names.now event }
    ensures ok { OnOk result (Gathers (K.written sink.old) (K.written sink.new) text.old.bytes
        text.new.bytes (flat_map (line names.now) (waits.now.items ++ events_told answer.now))) }
    ensures all { OnOk result (standing_after answer.now ≢ Standing.Running
        → text.new.bytes ≡ []) }
    ensures err { OnErr result (AppendsFront (K.written sink.old) (K.written sink.new)
        (text.old.bytes ++ flat_map (line names.now) (waits.now.items ++ events_told answer.now))) }
    ensures cause { HasCause (K.faults sink.old) (K.faults sink.new) result }
{
    gather_turn(waits, answer, names, text, sink)?;
    if answer.standing() == Standing::Running {
        return Ok(());
    }
    write_text(text, sink)
}
