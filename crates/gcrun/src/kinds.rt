//! The six kinds of a run.
ghost use Rattle.std.specs.Prelude.{◌≡◌, ◌++◌, ◌∷◌, [], OnOk, IfOk, map};
ghost use Rattle.std.specs.FinMap as fin;
ghost use Rattle.cg_value.specs.declared.KindCode.TheVariants as code;

use cg_cli::{Status, gc_run};
use cg_io::{Sink, Source};
use cg_kind::Kind;
use cg_kinds::{DictKind, FuncKind, InstKind, ListKind, TupleKind, WeakKind};
use std::alloc::{AllocError, Global};

/// A kind of each code.
#[derive(Drop)]
struct Kinds {
    lists: Box<dyn Kind>,
    tuples: Box<dyn Kind>,
    dicts: Box<dyn Kind>,
    instances: Box<dyn Kind>,
    functions: Box<dyn Kind>,
    weak_references: Box<dyn Kind>,
}

/// One box more.
fn push(kinds: &mut Vec<Box<dyn Kind>>, made: Box<dyn Kind>) -> Result<(), AllocError>
    ensures codes { OnOk result (map (λ b. kind b) kinds.new.items ≡
        map (λ b. kind b) kinds.old.items ++ kind made ∷ []) }
    ensures bodies { OnOk result (map (λ b. bodies b) kinds.new.items ≡
        map (λ b. bodies b) kinds.old.items ++ bodies made ∷ []) }
{
    kinds.push(made)?;
    Ok(())
}

/// Does what the words ask for, over these kinds, in the order of their codes.
fn run_over<S: Source, K: Sink>(
    alloc: Global,
    words: &[String],
    source: &mut S,
    sink: &mut K,
    six: Kinds,
) -> Result<Status, AllocError>
    requires lists { kind six.lists ≡ code.List }
    requires no_list { bodies six.lists ≡ fin.empty }
    requires tuples { kind six.tuples ≡ code.Tuple }
    requires no_tuple { bodies six.tuples ≡ fin.empty }
    requires dicts { kind six.dicts ≡ code.Dict }
    requires no_dict { bodies six.dicts ≡ fin.empty }
    requires instances { kind six.instances ≡ code.Inst }
    requires no_instance { bodies six.instances ≡ fin.empty }
    requires functions { kind six.functions ≡ code.Func }
    requires no_function { bodies six.functions ≡ fin.empty }
    requires weak_references { kind six.weak_references ≡ code.Weak }
    requires no_weak_reference { bodies six.weak_references ≡ fin.empty }
{
    let Kinds {
        lists,
        tuples,
        dicts,
        instances,
        functions,
        weak_references,
    } = six;
    let mut kinds: Vec<Box<dyn Kind>> = Vec::new(alloc);
    push(&mut kinds, lists)?;
    push(&mut kinds, tuples)?;
    push(&mut kinds, dicts)?;
    push(&mut kinds, instances)?;
    push(&mut kinds, functions)?;
    push(&mut kinds, weak_references)?;
    Ok(gc_run(alloc, words, source, sink, kinds))
}

/// A kind in a box.
fn boxed<K: Kind>(alloc: Global, kind: K) -> Result<Box<K>, AllocError>
    ensures kind { IfOk result (λ b. K.kind b.value ≡ K.kind kind) }
    ensures bodies { IfOk result (λ b. K.bodies b.value ≡ K.bodies kind) }
{
    Ok(Box::new(alloc, kind)?)
}

/// Does what the arguments ask for, with six kinds without objects, in the order of their codes.
/// Answers `AllocError` if memory for them was refused; then nothing was read or written.
pub fn run_over_kinds<S: Source, K: Sink>(
    alloc: Global,
    words: &[String],
    source: &mut S,
    sink: &mut K,
) -> Result<Status, AllocError> {
    let lists = boxed(alloc, ListKind::new(alloc))?;
    let tuples = boxed(alloc, TupleKind::new(alloc))?;
    let dicts = boxed(alloc, DictKind::new(alloc))?;
    let instances = boxed(alloc, InstKind::new(alloc))?;
    let functions = boxed(alloc, FuncKind::new(alloc))?;
    let weak_references = boxed(alloc, WeakKind::new(alloc))?;
    let six = Kinds {
        lists,
        tuples,
        dicts,
        instances,
        functions,
        weak_references,
    };
    run_over(alloc, words, source, sink, six)
}
