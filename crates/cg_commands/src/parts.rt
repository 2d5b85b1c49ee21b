//! The entries of a new object.
ghost use Rattle.std.specs.Prelude.{◌≡◌, ◌<◌, ◌≤◌, ◌++◌, ◌∷◌, [], IfOk, IfErr, OnOk, length};
ghost use Rattle.std.specs.List.{All};
ghost use Rattle.cg_graph.specs.Value.{item};
ghost use Rattle.cg_script.specs.Texts.{operands_texts};
ghost use Rattle.cg_machine.specs.Operands as machine;
ghost use Rattle.cg_machine.specs.Effects.{callback_entries};
ghost use Rattle.cg_heap.specs.Calls.{IsLiveValue};
ghost use Rattle.cg_commands.specs.Stands.{LocalsLive, IsRefused};
ghost use Rattle.cg_commands.specs.Parts.{Gathers, IsCallback};

use crate::done::Refusal;
use crate::locals::Locals;
use crate::operands::{Wanted, object, value};
use cg_heap::Heap;
use cg_kind::Kind;
use cg_script::Operand;
use cg_value::{Entry, Val};
use std::marker::Model;

/// Up to `N` entries, stored inline.
#[derive(Drop)]
pub(crate) struct Parts<const N: usize> {
    items: [Entry; N],
    len: usize,
}

impl<const N: usize> Model for Parts<N> {
    ghost use Rattle.std.specs.Prelude.{List, ◌≤◌, take};
    ghost use Rattle.cg_value.specs.declared.Entry.{Entry};

    ghost Value = { List Entry };

    ghost view = { λ p. take p.len p.items };

    ghost invariant = { λ p. p.len ≤ N };
}

impl<const N: usize> Parts<N> {
    /// No entries.
    pub(crate) fn new() -> Parts<N>
        ensures { result ≡ [] }
    {
        let none = Entry {
            key: Val::None,
            val: Val::None,
        };
        Parts {
            items: [none; N],
            len: 0,
        }
    }

    /// Appends an item, an entry without key.
    #[tactic(auto, using(std::proofs::lemmas::List::take_more_set))]
    fn push(&mut self, val: Val)
        requires { length self.old < N }
        ensures { self.new ≡ self.old ++ item val ∷ [] }
    {
        self.items[self.len] = Entry {
            key: Val::None,
            val,
        };
        self.len += 1;
    }

    /// The entries in order.
    pub(crate) fn as_slice(&self) -> &[Entry]
        ensures { result.now ≡ self.now }
    {
        &self.items[..self.len]
    }
}

/// The items that the values of operands make, in order, written into `parts`, which is empty. Refuses
/// at the first operand without a value.
pub(crate) fn gather<B: Kind, const N: usize>(
    heap: &Heap<B>,
    locals: &Option<Locals>,
    operands: &[Operand],
    parts: &mut Parts<N>,
) -> Result<(), Refusal>
    requires known { All (λ n. n < length heap.now.names) (operands_texts operands.now) }
    requires locals { LocalsLive heap.now locals.now }
    requires few { length operands.now ≤ N }
    requires empty { parts.old ≡ [] }
    ensures ok { OnOk result (Gathers heap.now locals.now operands.now parts.new) }
    ensures err { IfErr result (λ r. IsRefused heap.now locals.now
        (λ w. machine.values w operands.now) r) }
{
    for operand in operands {
        let val = value(heap, locals, operand)?;
        parts.push(val);
    }
    Ok(())
}

/// The entry of a weak reference with this callback: a function, or none for no callback.
pub(crate) fn callback_parts<B: Kind>(
    heap: &Heap<B>,
    locals: &Option<Locals>,
    callback: Val,
) -> Result<Parts<1>, Refusal>
    requires { IsLiveValue heap.now callback }
    ensures ok { IfOk result (λ parts. IsCallback heap.now locals.now callback parts) }
    ensures err { IfErr result (λ r. IsRefused heap.now locals.now
        (λ w. callback_entries w callback) r) }
{
    let mut parts = Parts::new();
    match callback {
        Val::None => Ok(parts),
        _ => {
            let _function = object(heap, callback, Wanted::Func)?;
            parts.push(callback);
            Ok(parts)
        }
    }
}
