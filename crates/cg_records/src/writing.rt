//! Writes records as text.
ghost use Rattle.std.specs.Prelude.{◌≡◌, ◌++◌, flat_map, decimal, IfOk, OnOk};
ghost use Rattle.std.specs.List.{All};
ghost use Rattle.cg_records.specs.Text.{numbered, member_text, graph_text, rest_text, record_text, text, IsWritable};

use crate::graph::{Graph, Member, Rec, Records};
use crate::serials::Serials;
use itoa::Buffer;
use std::alloc::{AllocError, Global};

fn put_number(out: &mut Vec<u8>, number: u64) -> Result<(), AllocError>
    ensures { OnOk result (out.new.items ≡ out.old.items ++ decimal number) }
{
    out.extend_from_slice(Buffer::new().format(number).as_bytes())
}

/// Writes a line with a word and a number.
fn put_numbered(out: &mut Vec<u8>, word: &[u8], number: u64) -> Result<(), AllocError>
    ensures { OnOk result (out.new.items ≡ out.old.items ++ numbered word.now number) }
{
    out.extend_from_slice(word)?;
    out.push(b' ')?;
    put_number(out, number)?;
    out.push(b'\n')?;
    Ok(())
}

/// Writes a line for each number.
fn put_each(out: &mut Vec<u8>, word: &[u8], numbers: &Serials) -> Result<(), AllocError>
    ensures { OnOk result (out.new.items ≡ out.old.items ++ flat_map (numbered word.now)
        numbers.now) }
{
    'numbers: for number in numbers.as_slice() {
        put_numbered(out, word, *number)?;
    }
    Ok(())
}

fn put_member(out: &mut Vec<u8>, member: &Member) -> Result<(), AllocError>
    ensures { OnOk result (out.new.items ≡ out.old.items ++ member_text member.now) }
{
    out.extend_from_slice(b"m ")?;
    put_number(out, member.serial)?;
    out.push(b' ')?;
    put_number(out, member.degree)?;
    out.push(b' ')?;
    out.push(if member.legacy { b'1' } else { b'0' })?;
    out.push(b'\n')?;
    put_each(out, b"r", &member.refs)
}

fn put_graph(out: &mut Vec<u8>, graph: &Graph) -> Result<(), AllocError>
    ensures { OnOk result (out.new.items ≡ out.old.items ++ graph_text graph.now) }
{
    'members: for member in graph.members.as_slice() {
        put_member(out, member)?;
    }
    put_each(out, b"lost", &graph.lost)
}

/// Writes the second graph of a record, or that the run ended before it.
fn put_rest(out: &mut Vec<u8>, second: &Option<Graph>) -> Result<(), AllocError>
    ensures { OnOk result (out.new.items ≡ out.old.items ++ rest_text second.now) }
{
    match second {
        None => out.extend_from_slice(b"cut\n"),
        Some(graph) => {
            out.extend_from_slice(b"graph 2\n")?;
            put_graph(out, graph)?;
            out.extend_from_slice(b"stop\n")
        }
    }
}

fn put_record(out: &mut Vec<u8>, rec: &Rec) -> Result<(), AllocError>
    ensures { OnOk result (out.new.items ≡ out.old.items ++ record_text rec.now) }
{
    put_numbered(out, b"record", u64::from(rec.generation))?;
    out.extend_from_slice(b"graph 1\n")?;
    put_graph(out, &rec.first)?;
    put_each(out, b"legacy", &rec.first.legacy)?;
    put_rest(out, &rec.second)
}

/// The text of records; `read_records` reads it back unchanged.
pub fn write_records(alloc: Global, records: &Records) -> Result<Vec<u8>, AllocError>
    requires { All IsWritable records.now }
    ensures { IfOk result (λ bytes. bytes.items ≡ text records.now) }
{
    let mut out = Vec::new(alloc);
    'records: for rec in records.as_slice() {
        put_record(&mut out, rec)?;
    }
    out.extend_from_slice(b"end\n")?;
    Ok(out)
}
