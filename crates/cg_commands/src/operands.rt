//! The values of operands, and the objects that they refer to.
ghost use Rattle.std.specs.Prelude.{◌≡◌, ◌<◌, IfOk, IfErr, IfSome, length, option_and_then, option_map, slice_get};
ghost use Rattle.std.specs.List.{All};
ghost use Rattle.cg_value.specs.declared.KindCode.TheVariants as code;
ghost use Rattle.cg_value.specs.declared.Val.TheVariants as val_of;
ghost use Rattle.cg_script.specs.Texts.{operand_texts};
ghost use Rattle.cg_graph.specs.Store.{entries_of};
ghost use Rattle.cg_heap.specs.Calls.{IsLiveValue};
ghost use Rattle.cg_machine.specs.Operands as machine;
ghost use Rattle.cg_commands.specs.Refusals.{number_of};
ghost use Rattle.cg_commands.specs.Stands.{LocalsLive, Reads, IsRefused, ReadsValue};
ghost use Rattle.cg_commands.specs.Objects.{test_of, refusal_of, bare, target_in, value_after, RefersTo, HasNoObject};

use crate::done::Refusal;
use crate::locals::Locals;
use cg_arena::Near;
use cg_heap::Heap;
use cg_kind::Kind;
use cg_machine::FrameSort;
use cg_script::Operand;
use cg_value::{KindCode, Val};

/// The kind of object that a command expects.
#[derive(Clone, Copy, Debug, PartialEq, Eq, Drop)]
pub(crate) enum Wanted {
    Any,
    List,
    /// A list other than the garbage list.
    ScriptList,
    /// A list or a tuple.
    Sequence,
    Dict,
    Func,
    /// An instance or a function: a kind that may have weak references, and be a key.
    Referable,
    Weak,
}

impl Wanted {
    /// Whether an object of this kind and serial is wanted.
    #[inline(always)]
    pub(crate) fn admits(self, code: KindCode, object: u64) -> bool
        ensures { result ≡ test_of self (bare code object) }
    {
        match code {
            KindCode::List => self.admits_list(object),
            KindCode::Tuple => matches!(self, Wanted::Any | Wanted::Sequence),
            KindCode::Dict => matches!(self, Wanted::Any | Wanted::Dict),
            KindCode::Inst => self.admits_instance(object),
            KindCode::Func => self.admits_function(object),
            KindCode::Weak => matches!(self, Wanted::Any | Wanted::Weak),
        }
    }

    /// Whether a list is wanted.
    #[inline(always)]
    fn admits_list(self, object: u64) -> bool
        ensures { result ≡ test_of self (bare code.List object) }
    {
        match self {
            Wanted::Any | Wanted::List | Wanted::Sequence => true,
            Wanted::ScriptList => object != 1,
            _ => false,
        }
    }

    /// Whether an instance is wanted.
    #[inline(always)]
    fn admits_instance(self, object: u64) -> bool
        ensures { result ≡ test_of self (bare code.Inst object) }
    {
        let _ = object;
        matches!(self, Wanted::Any | Wanted::Referable)
    }

    /// Whether a function is wanted.
    #[inline(always)]
    fn admits_function(self, object: u64) -> bool
        ensures { result ≡ test_of self (bare code.Func object) }
    {
        let _ = object;
        matches!(self, Wanted::Any | Wanted::Func | Wanted::Referable)
    }

    /// Why an object of another kind is refused.
    #[inline(always)]
    fn refusal(self) -> Refusal
        ensures { result ≡ refusal_of self }
    {
        match self {
            Wanted::Weak => Refusal::NotWeak,
            Wanted::Func => Refusal::NotCallable,
            _ => Refusal::WrongKind,
        }
    }
}

/// The value of an operand. Refuses an unbound name, and a local that the frame lacks.
#[inline(always)]
pub(crate) fn value<B: Kind>(
    heap: &Heap<B>,
    locals: &Option<Locals>,
    operand: &Operand,
) -> Result<Val, Refusal>
    requires known { All (λ n. n < length heap.now.names) (operand_texts operand.now) }
    requires locals { LocalsLive heap.now locals.now }
    ensures ok { IfOk result (λ v. Reads heap.now locals.now (λ w. machine.value w operand.now) v) }
    ensures live { IfOk result (λ v. IsLiveValue heap.now v) }
    ensures err { IfErr result (λ r. IsRefused heap.now locals.now
        (λ w. machine.value w operand.now) r) }
{
    let mut near = Near::default();
    value_located(heap, locals, operand, &mut near)
}

/// The same, and where the object that a name refers to may be.
#[inline(always)]
pub(crate) fn value_located<B: Kind>(
    heap: &Heap<B>,
    locals: &Option<Locals>,
    operand: &Operand,
    near: &mut Near,
) -> Result<Val, Refusal>
    requires known { All (λ n. n < length heap.now.names) (operand_texts operand.now) }
    requires locals { LocalsLive heap.now locals.now }
    ensures ok { IfOk result (λ v. Reads heap.now locals.now (λ w. machine.value w operand.now) v) }
    ensures live { IfOk result (λ v. IsLiveValue heap.now v) }
    ensures err { IfErr result (λ r. IsRefused heap.now locals.now
        (λ w. machine.value w operand.now) r) }
{
    match operand {
        Operand::Name(_) => value_near(heap, locals, operand, near),
        _ => match number_or_other(heap, locals, operand) {
            Some(value) => Ok(value),
            None => Err(Refusal::NoName),
        },
    }
}

/// `value_located`, for operands that are names nearly always.
#[inline(always)]
pub(crate) fn value_near<B: Kind>(
    heap: &Heap<B>,
    locals: &Option<Locals>,
    operand: &Operand,
    near: &mut Near,
) -> Result<Val, Refusal>
    requires known { All (λ n. n < length heap.now.names) (operand_texts operand.now) }
    requires locals { LocalsLive heap.now locals.now }
    ensures ok { IfOk result (λ v. Reads heap.now locals.now (λ w. machine.value w operand.now) v) }
    ensures live { IfOk result (λ v. IsLiveValue heap.now v) }
    ensures err { IfErr result (λ r. IsRefused heap.now locals.now
        (λ w. machine.value w operand.now) r) }
{
    match operand {
        Operand::Name(name) => {
            heap.sound();
            match heap.name_near(*name, near) {
                Some(value) => Ok(value),
                None => Err(Refusal::NoName),
            }
        }
        _ => match seldom_value(heap, locals, operand) {
            Some(value) => Ok(value),
            None => Err(Refusal::NoName),
        },
    }
}

/// The values of two operands in order, and where the objects that they refer to may be. The first
/// is a name nearly always. Refuses at the first one without a value.
#[inline(always)]
pub(crate) fn two_values<B: Kind>(
    heap: &Heap<B>,
    locals: &Option<Locals>,
    first: &Operand,
    second: &Operand,
    near: &mut Near,
    second_near: &mut Near,
) -> Result<(Val, Val), Refusal>
    requires first { All (λ n. n < length heap.now.names) (operand_texts first.now) }
    requires second { All (λ n. n < length heap.now.names) (operand_texts second.now) }
    requires locals { LocalsLive heap.now locals.now }
    ensures first { IfOk result (λ vs. Reads heap.now locals.now
        (λ w. machine.value w first.now) vs.0) }
    ensures second { IfOk result (λ vs. Reads heap.now locals.now
        (λ w. machine.value w second.now) vs.1) }
    ensures live { IfOk result (λ vs. IsLiveValue heap.now vs.0) }
    ensures second_live { IfOk result (λ vs. IsLiveValue heap.now vs.1) }
    ensures err { IfErr result (λ r. IsRefused heap.now locals.now
        (λ w. value_after w first.now second.now) r) }
{
    let val = value_near(heap, locals, first, near)?;
    let next = value_located(heap, locals, second, second_near)?;
    Ok((val, next))
}

/// The object of the wanted kind that an operand refers to, and where it is.
#[inline(always)]
pub(crate) fn target_of<B: Kind>(
    heap: &Heap<B>,
    locals: &Option<Locals>,
    operand: &Operand,
    wanted: Wanted,
    near: &mut Near,
) -> Result<u64, Refusal>
    requires known { All (λ n. n < length heap.now.names) (operand_texts operand.now) }
    requires locals { LocalsLive heap.now locals.now }
    ensures ok { IfOk result (λ o. Reads heap.now locals.now (λ w. machine.value w operand.now)
        (val_of.Ref o)) }
    ensures there { IfOk result (λ o. RefersTo heap.now (test_of wanted) (val_of.Ref o) o) }
    ensures err { IfErr result (λ r. IsRefused heap.now locals.now
        (λ w. target_in w operand.now (test_of wanted) (number_of (refusal_of wanted))) r) }
{
    let val = value_near(heap, locals, operand, near)?;
    object_near(heap, val, wanted, near)
}

/// The value of an operand other than a name, if it has one.
///
/// Tests one sort after the other, the most frequent first: a single `match` would compile to a
/// jump table. The calls are separate functions, since a function clears the space for results in
/// memory when it begins.
#[inline(always)]
fn number_or_other<B: Kind>(
    heap: &Heap<B>,
    locals: &Option<Locals>,
    operand: &Operand,
) -> Option<Val>
    requires known { All (λ n. n < length heap.now.names) (operand_texts operand.now) }
    requires locals { LocalsLive heap.now locals.now }
    ensures value { ReadsValue heap.now locals.now operand.now result }
    ensures live { IfSome result (λ v. IsLiveValue heap.now v) }
{
    match operand {
        Operand::Int(number) => Some(Val::Int(*number)),
        _ => text_or_other(heap, locals, operand),
    }
}

/// The same for an operand that is no number either.
#[inline(always)]
fn text_or_other<B: Kind>(heap: &Heap<B>, locals: &Option<Locals>, operand: &Operand) -> Option<Val>
    requires known { All (λ n. n < length heap.now.names) (operand_texts operand.now) }
    requires locals { LocalsLive heap.now locals.now }
    ensures value { ReadsValue heap.now locals.now operand.now result }
    ensures live { IfSome result (λ v. IsLiveValue heap.now v) }
{
    match operand {
        Operand::Str(text) => Some(Val::Str(*text)),
        _ => seldom_value(heap, locals, operand),
    }
}

/// The value of an operand of any sort, if it has one.
#[inline(always)]
fn seldom_value<B: Kind>(heap: &Heap<B>, locals: &Option<Locals>, operand: &Operand) -> Option<Val>
    requires known { All (λ n. n < length heap.now.names) (operand_texts operand.now) }
    requires locals { LocalsLive heap.now locals.now }
    ensures value { ReadsValue heap.now locals.now operand.now result }
    ensures live { IfSome result (λ v. IsLiveValue heap.now v) }
{
    let value = value_of(heap, locals, operand);
    value
}

/// The value of an operand, if it has one.
#[inline(never)]
fn value_of<B: Kind>(heap: &Heap<B>, locals: &Option<Locals>, operand: &Operand) -> Option<Val>
    requires known { All (λ n. n < length heap.now.names) (operand_texts operand.now) }
    requires locals { LocalsLive heap.now locals.now }
    ensures value { ReadsValue heap.now locals.now operand.now result }
    ensures live { IfSome result (λ v. IsLiveValue heap.now v) }
{
    heap.sound();
    match operand {
        Operand::None => Some(Val::None),
        Operand::Int(number) => Some(Val::Int(*number)),
        Operand::Str(text) => Some(Val::Str(*text)),
        Operand::Name(name) => heap.name(*name),
        Operand::SelfLocal => finalized_in(locals),
        Operand::WeakLocal => weak_in(locals),
        Operand::Cell(i) => cell_in(heap, locals, *i),
        Operand::Garbage => Some(Val::Ref(1)),
    }
}

/// The object whose finalizer or legacy finalizer runs.
fn finalized_in(locals: &Option<Locals>) -> Option<Val>
    ensures { result ≡ option_map val_of.Ref
        (option_and_then (λ l. machine.self_in l.sort l.subject) locals.now) }
{
    let Some(frame) = locals else { return None };
    match frame.sort {
        FrameSort::Del | FrameSort::Legacy => Some(Val::Ref(frame.subject)),
        FrameSort::Callback | FrameSort::Call => None,
    }
}

/// The weak reference whose callback runs.
fn weak_in(locals: &Option<Locals>) -> Option<Val>
    ensures { result ≡ option_map val_of.Ref
        (option_and_then (λ l. machine.weak_in l.sort l.subject) locals.now) }
{
    let Some(frame) = locals else { return None };
    match frame.sort {
        FrameSort::Callback => Some(Val::Ref(frame.subject)),
        FrameSort::Del | FrameSort::Legacy | FrameSort::Call => None,
    }
}

/// A cell of the function whose frame runs.
fn cell_in<B: Kind>(heap: &Heap<B>, locals: &Option<Locals>, i: u8) -> Option<Val>
    requires { LocalsLive heap.now locals.now }
    ensures value { result ≡ option_and_then (λ l. option_and_then
        (λ f. option_map (λ e. e.val) (slice_get (entries_of heap.now f) i)) l.func) locals.now }
    ensures live { IfSome result (λ v. IsLiveValue heap.now v) }
{
    heap.sound();
    let Some(frame) = locals else { return None };
    let Some(func) = frame.func else { return None };
    let i = usize::from(i);
    if i < heap.len(func) {
        Some(heap.entry_at(func, i).val)
    } else {
        None
    }
}

/// The object that a value refers to, if it is of the kind.
#[inline(always)]
pub(crate) fn object<B: Kind>(heap: &Heap<B>, val: Val, wanted: Wanted) -> Result<u64, Refusal>
    requires { IsLiveValue heap.now val }
    ensures ok { IfOk result (λ o. RefersTo heap.now (test_of wanted) val o) }
    ensures err { IfErr result (λ r. HasNoObject heap.now (test_of wanted)
        (number_of (refusal_of wanted)) val r) }
{
    let mut near = Near::default();
    object_near(heap, val, wanted, &mut near)
}

/// The same, and where the object is, for the next access. Looks nothing up if the object is near
/// already.
#[inline(always)]
pub(crate) fn object_near<B: Kind>(
    heap: &Heap<B>,
    val: Val,
    wanted: Wanted,
    near: &mut Near,
) -> Result<u64, Refusal>
    requires { IsLiveValue heap.now val }
    ensures ok { IfOk result (λ o. RefersTo heap.now (test_of wanted) val o) }
    ensures err { IfErr result (λ r. HasNoObject heap.now (test_of wanted)
        (number_of (refusal_of wanted)) val r) }
{
    let Val::Ref(object) = val else {
        return Err(wanted.refusal());
    };
    if wanted.admits(heap.locate(object, near), object) {
        Ok(object)
    } else {
        Err(wanted.refusal())
    }
}
