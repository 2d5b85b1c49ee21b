//! The graphs of records, written from a heap.
ghost use Rattle.std.specs.Prelude.{◌≡◌, ◌≤◌, ◌+◌, Some, length, flat_map, codes, OnOk, OnErr};
ghost use Rattle.std.specs.Io.KnownBytes.{Appends};
ghost use Rattle.cg_io.specs.Causes.{HasCause, AppendsFront};
ghost use Rattle.cg_graph.specs.Value.{references, references_of_value};
ghost use Rattle.cg_graph.specs.Store.{IsLive, entries_of, list_at};
ghost use Rattle.cg_arena.specs.Nodes.{IsPlace};
ghost use Rattle.cg_heap.specs.Calls.{IsLiveValue};
ghost use Rattle.cg_records.specs.Text.{numbered, member_text};
ghost use Rattle.cg_interp.specs.Graphs.{is_candidate_at, among, member_in, members_text, generations_below, candidates_in, sorted_text, final_text, findings, IsOfGenerations};

use crate::record_lines::{write_member_line, write_numbered};
use cg_arena::Near;
use cg_death::finalizers_of;
use cg_heap::Heap;
use cg_io::{Sink, WriteFailed};
use cg_kind::Kind;
use cg_script::Script;
use cg_value::{Place, Val};

/// A recorded reachability pass of a collection.
#[derive(Clone, Copy, Debug, PartialEq, Eq, Drop)]
pub enum Detection {
    /// The first one, at the start of a collection of this generation.
    First { generation: u8 },
    /// The second one, after the finalizers.
    Second,
}

/// Whether the pass examines an object in this place: in the generation or a younger one, or among
/// the condemned.
fn looks_at(detection: Detection, place: Place) -> bool
    ensures { result ≡ is_candidate_at detection place }
{
    match (detection, place) {
        (Detection::First { generation }, Place::Gen(i)) => i <= generation,
        (Detection::Second, Place::Cand) => true,
        _ => false,
    }
}

/// Writes the reference of a value, if it refers to an object that the pass examines.
fn write_reference<B: Kind, K: Sink>(
    heap: &Heap<B>,
    detection: Detection,
    value: Val,
    sink: &mut K,
) -> Result<(), WriteFailed>
    requires { IsLiveValue heap.now value }
    ensures ok { OnOk result (Appends (K.written sink.old) (K.written sink.new)
        (flat_map (numbered (codes "r"))
        (among heap.now detection (references_of_value (Some value))))) }
    ensures err { OnErr result (AppendsFront (K.written sink.old) (K.written sink.new)
        (flat_map (numbered (codes "r"))
        (among heap.now detection (references_of_value (Some value))))) }
    ensures cause { HasCause (K.faults sink.old) (K.faults sink.new) result }
{
    if let Val::Ref(object) = value {
        if looks_at(detection, heap.place_of(object)) {
            return write_numbered("r", object, sink);
        }
    }
    Ok(())
}

/// Writes the references of an object to those that the pass examines, in entry order.
fn write_references<B: Kind, K: Sink>(
    heap: &Heap<B>,
    detection: Detection,
    object: u64,
    near: Near,
    sink: &mut K,
) -> Result<(), WriteFailed>
    requires { IsLive heap.now object }
    ensures ok { OnOk result (Appends (K.written sink.old) (K.written sink.new)
        (flat_map (numbered (codes "r"))
        (among heap.now detection (references (entries_of heap.now object))))) }
    ensures err { OnErr result (AppendsFront (K.written sink.old) (K.written sink.new)
        (flat_map (numbered (codes "r"))
        (among heap.now detection (references (entries_of heap.now object))))) }
    ensures cause { HasCause (K.faults sink.old) (K.faults sink.new) result }
{
    heap.sound();
    'entries: for i in 0..heap.len_near(object, near) {
        let entry = heap.entry_near(object, i, near);
        write_reference(heap, detection, entry.val, sink)?;
        write_reference(heap, detection, entry.key, sink)?;
    }
    Ok(())
}

/// Writes an object as a member, with its references to members.
fn write_member<B: Kind, K: Sink>(
    heap: &Heap<B>,
    script: &Script,
    detection: Detection,
    object: u64,
    near: Near,
    sink: &mut K,
) -> Result<(), WriteFailed>
    requires { IsLive heap.now object }
    ensures ok { OnOk result (Appends (K.written sink.old) (K.written sink.new)
        (member_text (member_in script.now heap.now detection object))) }
    ensures err { OnErr result (AppendsFront (K.written sink.old) (K.written sink.new)
        (member_text (member_in script.now heap.now detection object))) }
    ensures cause { HasCause (K.faults sink.old) (K.faults sink.new) result }
{
    let legacy = finalizers_of(heap, script, object).legacy.is_some();
    write_member_line(object, heap.refs(object), legacy, sink)?;
    write_references(heap, detection, object, near, sink)
}

/// Writes the objects of a place as members.
fn write_members_at<B: Kind, K: Sink>(
    heap: &Heap<B>,
    script: &Script,
    detection: Detection,
    place: Place,
    sink: &mut K,
) -> Result<(), WriteFailed>
    requires { IsPlace place }
    ensures ok { OnOk result (Appends (K.written sink.old) (K.written sink.new)
        (members_text script.now heap.now detection (list_at heap.now place))) }
    ensures err { OnErr result (AppendsFront (K.written sink.old) (K.written sink.new)
        (members_text script.now heap.now detection (list_at heap.now place))) }
    ensures cause { HasCause (K.faults sink.old) (K.faults sink.new) result }
{
    heap.sound();
    let mut near = Near::default();
    let mut cursor = heap.first_near(place, &mut near);
    'objects: while let Some(object) = cursor {
        write_member(heap, script, detection, object, near, sink)?;
        cursor = heap.next_near(object, &mut near);
    }
    Ok(())
}

/// Writes the objects of a generation and the younger ones as members.
fn write_generations<B: Kind, K: Sink>(
    heap: &Heap<B>,
    script: &Script,
    generation: u8,
    sink: &mut K,
) -> Result<(), WriteFailed>
    requires { generation ≤ 2 }
    ensures ok { OnOk result (Appends (K.written sink.old) (K.written sink.new)
        (members_text script.now heap.now (Detection.First generation) (generations_below heap.now
        (generation + 1)))) }
    ensures err { OnErr result (AppendsFront (K.written sink.old) (K.written sink.new)
        (members_text script.now heap.now (Detection.First generation) (generations_below heap.now
        (generation + 1)))) }
    ensures cause { HasCause (K.faults sink.old) (K.faults sink.new) result }
{
    let detection = Detection::First { generation };
    'generations: for i in 0..generation + 1 {
        write_members_at(heap, script, detection, Place::Gen(i), sink)?;
    }
    Ok(())
}

/// Writes the objects that the pass examines as the members of its graph.
pub fn write_members<B: Kind, K: Sink>(
    heap: &Heap<B>,
    script: &Script,
    detection: Detection,
    sink: &mut K,
) -> Result<(), WriteFailed>
    requires { IsOfGenerations detection }
    ensures ok { OnOk result (Appends (K.written sink.old) (K.written sink.new)
        (members_text script.now heap.now detection (candidates_in heap.now detection))) }
    ensures err { OnErr result (AppendsFront (K.written sink.old) (K.written sink.new)
        (members_text script.now heap.now detection (candidates_in heap.now detection))) }
    ensures cause { HasCause (K.faults sink.old) (K.faults sink.new) result }
{
    match detection {
        Detection::First { generation } => write_generations(heap, script, generation, sink),
        Detection::Second => write_members_at(heap, script, detection, Place::Cand, sink),
    }
}

/// Writes a line with a word, of at most eight bytes, for each object of a place.
fn write_all_at<B: Kind, K: Sink>(
    heap: &Heap<B>,
    place: Place,
    word: &str,
    sink: &mut K,
) -> Result<(), WriteFailed>
    requires place { IsPlace place }
    requires short { length word.now ≤ 8 }
    ensures ok { OnOk result (Appends (K.written sink.old) (K.written sink.new)
        (flat_map (numbered word.now) (list_at heap.now place))) }
    ensures err { OnErr result (AppendsFront (K.written sink.old) (K.written sink.new)
        (flat_map (numbered word.now) (list_at heap.now place))) }
    ensures cause { HasCause (K.faults sink.old) (K.faults sink.new) result }
{
    heap.sound();
    let mut near = Near::default();
    let mut cursor = heap.first_near(place, &mut near);
    'objects: while let Some(object) = cursor {
        write_numbered(word, object, sink)?;
        cursor = heap.next_near(object, &mut near);
    }
    Ok(())
}

/// Writes what a first pass found: the unreachable objects, and the uncollectable ones among them.
fn write_sorted<B: Kind, K: Sink>(heap: &Heap<B>, sink: &mut K) -> Result<(), WriteFailed>
    ensures ok { OnOk result (Appends (K.written sink.old) (K.written sink.new)
        (sorted_text heap.now)) }
    ensures err { OnErr result (AppendsFront (K.written sink.old) (K.written sink.new)
        (sorted_text heap.now)) }
    ensures cause { HasCause (K.faults sink.old) (K.faults sink.new) result }
{
    write_all_at(heap, Place::Cand, "lost", sink)?;
    write_all_at(heap, Place::Legacy, "lost", sink)?;
    write_all_at(heap, Place::Legacy, "legacy", sink)
}

/// Writes what a second pass found, and that the record ends.
fn write_final<B: Kind, K: Sink>(heap: &Heap<B>, sink: &mut K) -> Result<(), WriteFailed>
    ensures ok { OnOk result (Appends (K.written sink.old) (K.written sink.new)
        (final_text heap.now)) }
    ensures err { OnErr result (AppendsFront (K.written sink.old) (K.written sink.new)
        (final_text heap.now)) }
    ensures cause { HasCause (K.faults sink.old) (K.faults sink.new) result }
{
    write_all_at(heap, Place::Cand, "lost", sink)?;
    sink.write(b"stop\n")
}

/// Writes what the pass found, from the heap after its step.
pub fn write_findings<B: Kind, K: Sink>(
    heap: &Heap<B>,
    detection: Detection,
    sink: &mut K,
) -> Result<(), WriteFailed>
    ensures ok { OnOk result (Appends (K.written sink.old) (K.written sink.new)
        (findings heap.now detection)) }
    ensures err { OnErr result (AppendsFront (K.written sink.old) (K.written sink.new)
        (findings heap.now detection)) }
    ensures cause { HasCause (K.faults sink.old) (K.faults sink.new) result }
{
    match detection {
        Detection::First { .. } => write_sorted(heap, sink),
        Detection::Second => write_final(heap, sink),
    }
}
