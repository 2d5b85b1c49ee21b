//! The verdict on the bytes of records.
ghost use Rattle.std.specs.Prelude.{◌≡◌, ◌≤◌, ◌<◌, length, IfOk, IfSome, IfNone};
ghost use Rattle.std.specs.List.{All};
ghost use Rattle.cg_cert.specs.Judged.{parts_of, IsRight, IsFirstFault, Judges};
ghost use Rattle.cg_cert.specs.Positions.{JudgesRecords};

use crate::graph::fault_of;
use cg_records::{Rec, read_records};
use std::alloc::{AllocError, Global};

/// The verdict on bytes.
#[derive(Clone, Copy, Debug, PartialEq, Eq, Drop)]
pub enum Verdict {
    /// They are records, and each graph of them is right.
    Yes {
        /// The number of records.
        records: u64,
    },
    /// They are not records, or a graph in them has a fault.
    No {
        /// The position of the first such graph, from 1; 0 if the bytes are not records.
        graph: u64,
        /// Its least fault code: 2 a wrong name, 3 an in-degree too low, 4 the set found
        /// unreachable is wrong, 5 the legacy set is wrong; 1 if the bytes are not records.
        code: u8,
    },
}

/// The first fault in a record.
#[derive(Clone, Copy, Drop)]
struct Fault {
    /// 1 in the first graph, 2 in the second.
    position: u64,
    code: u8,
}

/// The number of graphs in a record, 1 or 2.
fn graphs_in(rec: &Rec) -> u64
    ensures count { result ≡ length (parts_of rec.now) }
    ensures few { result ≤ 2 }
{
    match &rec.second {
        Some(_) => 2,
        None => 1,
    }
}

/// The first fault in a record, if it has one.
fn fault_in(alloc: Global, rec: &Rec) -> Result<Option<Fault>, AllocError>
    ensures right { IfOk result (λ fault. IfNone fault (All IsRight (parts_of rec.now))) }
    ensures fault { IfOk result (λ fault. IfSome fault (λ f. IsFirstFault (parts_of rec.now) f.position
        f.code)) }
    ensures few { IfOk result (λ fault. IfSome fault (λ f. f.position ≤ 2)) }
{
    if let Some(code) = fault_of(alloc, &rec.first, true)? {
        return Ok(Some(Fault { position: 1, code }));
    }
    let Some(second) = &rec.second else {
        return Ok(None);
    };
    match fault_of(alloc, second, false)? {
        Some(code) => Ok(Some(Fault { position: 2, code })),
        None => Ok(None),
    }
}

/// The verdict on records.
fn judge(alloc: Global, records: &[Rec]) -> Result<Verdict, AllocError>
    ensures { IfOk result (λ verdict. JudgesRecords records.now verdict) }
{
    let mut graphs: u64 = 0;
    'records: for rec in records {
        if let Some(fault) = fault_in(alloc, rec)? {
            return Ok(Verdict::No {
                graph: graphs + fault.position,
                code: fault.code,
            });
        }
        graphs += graphs_in(rec);
    }
    Ok(Verdict::Yes {
        records: records.len() as u64,
    })
}

/// The verdict on bytes: whether they are records whose graphs are all right, else where the first
/// fault is.
///
/// Takes time near linear in the bytes, and memory linear in them. `AllocError` means memory ran
/// out. (When a graph is right: developer guide, "identifying reference cycles"; `gc` manual,
/// `gc.garbage`.)
pub fn check_records(alloc: Global, bytes: &[u8]) -> Result<Verdict, AllocError>
    ensures { IfOk result (λ verdict. Judges bytes.now verdict) }
{
    match read_records(alloc, bytes)? {
        Some(records) => judge(alloc, records.as_slice()),
        None => Ok(Verdict::No { graph: 0, code: 1 }),
    }
}
