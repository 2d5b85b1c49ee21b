//! What a turn records: the graph of its reachability pass.
ghost use Rattle.std.specs.Prelude.{◌≡◌, ◌++◌, codes, cond, Some, None, OnOk, OnErr};
ghost use Rattle.std.specs.Io.KnownBytes.{Appends};
ghost use Rattle.cg_io.specs.Causes.{HasCause, AppendsFront};
ghost use Rattle.cg_interp.specs.Graphs.{IsOfGenerations, AreOfGenerations, record_heading, heading, begun_text, text_before, text_after, closing, taken, taken_while, unfinished_after, begins_record, detection_on, detection_by};
ghost use Rattle.cg_collect.specs.Stages.{stage_of};

use crate::engine::Engine;
use crate::graphs::{Detection, write_findings, write_members};
use crate::record_lines::{write_cut, write_numbered};
use cg_collect::{Collection, Stage};
use cg_heap::Heap;
use cg_io::{Sink, WriteFailed};
use cg_kind::Kind;
use cg_script::Script;

/// The reachability pass in the next step of a collection, if any.
fn detection_of(collection: &Collection) -> Option<Detection>
    ensures { result ≡ detection_by collection.now.generation (stage_of collection.now) }
{
    match collection.stage() {
        Stage::BeforeFirst => Some(Detection::First {
            generation: collection.generation(),
        }),
        Stage::BeforeSecond => Some(Detection::Second),
        Stage::AfterFirst | Stage::AfterSecond | Stage::Between => None,
    }
}

impl<B: Kind> Engine<B> {
    /// The reachability pass in the next turn, if any: that of a collection on top.
    pub fn next_detection(&self) -> Option<Detection>
        ensures { result ≡ detection_on self.now.activities }
    {
        match self.stack.collection_on_top() {
            Some(collection) => detection_of(collection),
            None => None,
        }
    }
}

impl Detection {
    /// Whether a record contains its graph: a first pass begins a record, and a second one ends the
    /// unfinished one.
    fn is_taken(self, unfinished: bool) -> bool
        ensures { taken_while unfinished self ≡ cond result (Some self) None }
    {
        match self {
            Detection::First { .. } => true,
            Detection::Second => unfinished,
        }
    }

    /// Whether a record is unfinished after it, and waits for its second graph.
    fn begins_record(self) -> bool
        ensures { result ≡ begins_record self }
    {
        match self {
            Detection::First { .. } => true,
            Detection::Second => false,
        }
    }
}

/// The pass, if a record contains its graph.
pub fn recorded_of(detection: Option<Detection>, unfinished: bool) -> Option<Detection>
    ensures { result ≡ taken unfinished detection }
{
    match detection {
        Some(made) if made.is_taken(unfinished) => Some(made),
        _ => None,
    }
}

/// Whether a record is unfinished after a turn with this pass, or with none.
pub fn is_unfinished_after(detection: Option<Detection>, unfinished: bool) -> bool
    ensures { result ≡ unfinished_after unfinished detection }
{
    match detection {
        Some(made) => made.begins_record(),
        None => unfinished,
    }
}

/// Writes the beginning of a record of a collection of this generation, and its first graph. Ends
/// an unfinished record.
fn write_record<K: Sink>(generation: u64, unfinished: bool, sink: &mut K) -> Result<(), WriteFailed>
    ensures ok { OnOk result (Appends (K.written sink.old) (K.written sink.new)
        (record_heading unfinished generation)) }
    ensures err { OnErr result (AppendsFront (K.written sink.old) (K.written sink.new)
        (record_heading unfinished generation)) }
    ensures cause { HasCause (K.faults sink.old) (K.faults sink.new) result }
{
    write_cut(unfinished, sink)?;
    write_numbered("record", generation, sink)?;
    sink.write(b"graph 1\n")
}

/// Writes the heading of the graph of a pass.
fn write_heading<K: Sink>(
    detection: Detection,
    unfinished: bool,
    sink: &mut K,
) -> Result<(), WriteFailed>
    ensures ok { OnOk result (Appends (K.written sink.old) (K.written sink.new)
        (heading unfinished detection)) }
    ensures err { OnErr result (AppendsFront (K.written sink.old) (K.written sink.new)
        (heading unfinished detection)) }
    ensures cause { HasCause (K.faults sink.old) (K.faults sink.new) result }
{
    match detection {
        Detection::First { generation } => { write_record(u64::from(generation), unfinished, sink) }
        Detection::Second => sink.write(b"graph 2\n"),
    }
}

/// Writes the heading of the graph of a pass, and its members, from the heap before its step.
fn write_begun<B: Kind, K: Sink>(
    heap: &Heap<B>,
    script: &Script,
    detection: Detection,
    unfinished: bool,
    sink: &mut K,
) -> Result<(), WriteFailed>
    requires { IsOfGenerations detection }
    ensures ok { OnOk result (Appends (K.written sink.old) (K.written sink.new)
        (begun_text script.now heap.now unfinished detection)) }
    ensures err { OnErr result (AppendsFront (K.written sink.old) (K.written sink.new)
        (begun_text script.now heap.now unfinished detection)) }
    ensures cause { HasCause (K.faults sink.old) (K.faults sink.new) result }
{
    write_heading(detection, unfinished, sink)?;
    write_members(heap, script, detection, sink)
}

impl<B: Kind> Engine<B> {
    /// Writes what is recorded before a turn with this pass, or with none.
    pub fn write_before<K: Sink>(
        &self,
        script: &Script,
        detection: Option<Detection>,
        unfinished: bool,
        sink: &mut K,
    ) -> Result<(), WriteFailed>
        requires { AreOfGenerations detection }
        ensures ok { OnOk result (Appends (K.written sink.old) (K.written sink.new)
            (text_before script.now self.now.store unfinished detection)) }
        ensures err { OnErr result (AppendsFront (K.written sink.old) (K.written sink.new)
            (text_before script.now self.now.store unfinished detection)) }
        ensures cause { HasCause (K.faults sink.old) (K.faults sink.new) result }
    {
        match detection {
            Some(made) => write_begun(&self.heap, script, made, unfinished, sink),
            None => Ok(()),
        }
    }

    /// Writes what is recorded after it.
    pub fn write_after<K: Sink>(
        &self,
        detection: Option<Detection>,
        sink: &mut K,
    ) -> Result<(), WriteFailed>
        ensures ok { OnOk result (Appends (K.written sink.old) (K.written sink.new)
            (text_after self.now.store detection)) }
        ensures err { OnErr result (AppendsFront (K.written sink.old) (K.written sink.new)
            (text_after self.now.store detection)) }
        ensures cause { HasCause (K.faults sink.old) (K.faults sink.new) result }
    {
        match detection {
            Some(made) => write_findings(&self.heap, made, sink),
            None => Ok(()),
        }
    }
}

/// Writes the end of the records; an unfinished one ends without a second graph.
pub fn write_end<K: Sink>(unfinished: bool, sink: &mut K) -> Result<(), WriteFailed>
    ensures ok { OnOk result (Appends (K.written sink.old) (K.written sink.new) (closing unfinished
        ++ codes "end\n")) }
    ensures err { OnErr result (AppendsFront (K.written sink.old) (K.written sink.new)
        (closing unfinished ++ codes "end\n")) }
    ensures cause { HasCause (K.faults sink.old) (K.faults sink.new) result }
{
    write_cut(unfinished, sink)?;
    sink.write(b"end\n")
}
