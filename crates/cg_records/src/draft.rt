//! Records under construction: what was read so far, and which lines may follow.
ghost use Rattle.std.specs.Prelude.{◌≡◌, ◌&&◌, [], IfOk};
ghost use Rattle.cg_records.specs.Lists.{none_in};
ghost use Rattle.cg_records.specs.Reading.{in_graph, between, opened, at_graph, within, step, graph as graph_of};

use crate::graph::{Graph, Member, Members, Rec, Records};
use crate::line::Line;
use crate::serials::Serials;
use std::alloc::{AllocError, Global};

/// The position of the next line in the text.
#[derive(Drop)]
pub(crate) enum Stage {
    /// Before a record, or before the end line.
    Between,
    /// After the line that opens the record of a generation.
    Opened(u8),
    /// In a graph: the generation, the first graph if this is the second, and this graph so far.
    Within(u8, Option<Graph>, Graph),
    /// After the end line.
    Ended,
}

/// The records read so far, and the position of the next line.
#[derive(Drop)]
pub(crate) struct Draft {
    pub records: Records,
    pub stage: Stage,
}

fn empty_graph(alloc: Global) -> Graph
    ensures { result ≡ graph_of [] [] [] }
{
    Graph {
        members: Members::new(Vec::new(alloc)),
        lost: Serials::new(Vec::new(alloc)),
        legacy: Serials::new(Vec::new(alloc)),
    }
}

/// Whether members and their references may still follow.
fn takes_members(graph: &Graph) -> bool
    ensures { result ≡ (none_in graph.now.lost && none_in graph.now.legacy) }
{
    graph.lost.is_empty() && graph.legacy.is_empty()
}

/// The graph after a line, if the line is allowed there.
fn step_in_graph(alloc: Global, mut graph: Graph, line: Line) -> Result<Option<Graph>, AllocError>
    ensures { IfOk result (λ grown. grown ≡ in_graph graph line) }
{
    match line {
        Line::Member {
            serial,
            degree,
            legacy,
        } => {
            if !takes_members(&graph) {
                return Ok(None);
            }
            let refs = Serials::new(Vec::new(alloc));
            graph.members.push(Member {
                serial,
                degree,
                legacy,
                refs,
            })?;
            Ok(Some(graph))
        }
        Line::Reference(serial) => {
            if !takes_members(&graph) {
                return Ok(None);
            }
            if graph.members.refer(serial)? {
                Ok(Some(graph))
            } else {
                Ok(None)
            }
        }
        Line::Lost(serial) => {
            if !graph.legacy.is_empty() {
                return Ok(None);
            }
            graph.lost.push(serial)?;
            Ok(Some(graph))
        }
        Line::Legacy(serial) => {
            graph.legacy.push(serial)?;
            Ok(Some(graph))
        }
        _ => Ok(None),
    }
}

fn step_between(records: Records, line: Line) -> Option<Draft>
    ensures { result ≡ between records line }
{
    match line {
        Line::Record(generation) => Some(Draft {
            records,
            stage: Stage::Opened(generation),
        }),
        Line::End => Some(Draft {
            records,
            stage: Stage::Ended,
        }),
        _ => None,
    }
}

fn step_opened(alloc: Global, records: Records, generation: u8, line: Line) -> Option<Draft>
    ensures { result ≡ opened records generation line }
{
    match line {
        Line::First => Some(Draft {
            records,
            stage: Stage::Within(generation, None, empty_graph(alloc)),
        }),
        _ => None,
    }
}

/// A line in a graph of a record, or after one.
fn step_within(
    alloc: Global,
    mut records: Records,
    generation: u8,
    first: Option<Graph>,
    graph: Graph,
    line: Line,
) -> Result<Option<Draft>, AllocError>
    ensures { IfOk result (λ next. next ≡ within records generation first graph line) }
{
    match line {
        Line::Second => match first {
            None => Ok(Some(Draft {
                records,
                stage: Stage::Within(generation, Some(graph), empty_graph(alloc)),
            })),
            Some(_) => Ok(None),
        },
        Line::Cut => match first {
            None => {
                records.push(Rec {
                    generation,
                    first: graph,
                    second: None,
                })?;
                Ok(Some(Draft {
                    records,
                    stage: Stage::Between,
                }))
            }
            Some(_) => Ok(None),
        },
        Line::Stop => match first {
            None => Ok(None),
            Some(first) => {
                records.push(Rec {
                    generation,
                    first,
                    second: Some(graph),
                })?;
                Ok(Some(Draft {
                    records,
                    stage: Stage::Between,
                }))
            }
        },
        Line::Legacy(_) => match first {
            None => step_graph(alloc, records, generation, None, graph, line),
            Some(_) => Ok(None),
        },
        _ => step_graph(alloc, records, generation, first, graph, line),
    }
}

/// A line that adds to a graph.
fn step_graph(
    alloc: Global,
    records: Records,
    generation: u8,
    first: Option<Graph>,
    graph: Graph,
    line: Line,
) -> Result<Option<Draft>, AllocError>
    ensures { IfOk result (λ next. next ≡ at_graph records generation first graph line) }
{
    match step_in_graph(alloc, graph, line)? {
        Some(grown) => Ok(Some(Draft {
            records,
            stage: Stage::Within(generation, first, grown),
        })),
        None => Ok(None),
    }
}

/// The draft after a line, if the line is allowed there.
pub(crate) fn take_line(
    alloc: Global,
    draft: Draft,
    line: Line,
) -> Result<Option<Draft>, AllocError>
    ensures { IfOk result (λ next. next ≡ step draft line) }
{
    let Draft { records, stage } = draft;
    match stage {
        Stage::Between => Ok(step_between(records, line)),
        Stage::Opened(generation) => Ok(step_opened(alloc, records, generation, line)),
        Stage::Within(generation, first, graph) => {
            step_within(alloc, records, generation, first, graph, line)
        }
        Stage::Ended => Ok(None),
    }
}
