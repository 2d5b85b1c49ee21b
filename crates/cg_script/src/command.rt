//! Commands and their operands.
use crate::members::Operands;

/// What an operand of a command is: an atom, a variable, or a local of the running frame.
#[derive(Clone, Copy, Debug, PartialEq, Eq, Default, Drop)]
pub enum Operand {
    /// The value none.
    #[default]
    None,
    /// A whole number.
    Int(i64),
    /// A string, by its number among the script's texts.
    Str(u32),
    /// A variable, by the number of its name.
    Name(u32),
    /// `self`: the object whose finalizer runs.
    SelfLocal,
    /// `ref`: the weak reference whose callback runs.
    WeakLocal,
    /// A cell of the function whose frame runs, 0 to 7.
    Cell(u8),
    /// `garbage`: the garbage list, as `gc.garbage`.
    Garbage,
}

/// A command, one variant for each row of the table of commands (docs/SCRIPT.md). Names, classes
/// and procedures appear by number.
#[derive(Drop)]
pub enum Command {
    /// `x = list v*`: a new list of the values, bound to x.
    MakeList {
        name: u32,
        items: Operands,
    },
    /// `x = tuple v v*`: a new tuple.
    MakeTuple {
        name: u32,
        items: Operands,
    },
    /// `x = dict`: a new empty dictionary.
    MakeDict {
        name: u32,
    },
    /// `x = new C`: a new instance of a class, without attributes.
    MakeInst {
        name: u32,
        class: u32,
    },
    /// `x = func P v*`: a new function of a procedure, with at most 8 cells.
    MakeFunc {
        name: u32,
        proc: u32,
        cells: Operands,
    },
    /// `x = ref y [f]`: a new weak reference to y, with the callback f, or none.
    MakeRef {
        name: u32,
        target: Operand,
        callback: Operand,
    },
    /// `x = v`: binds x to the value.
    Bind {
        name: u32,
        value: Operand,
    },
    /// `del x`: unbinds x.
    Del {
        name: u32,
    },
    /// `append L v`: appends the value.
    Append {
        list: Operand,
        value: Operand,
    },
    /// `setitem L i v`: replaces item i.
    SetItem {
        list: Operand,
        index: i64,
        value: Operand,
    },
    /// `delitem L i`: removes item i.
    DelItem {
        list: Operand,
        index: i64,
    },
    /// `put D K v`: sets the value under the key.
    Put {
        dict: Operand,
        key: Operand,
        value: Operand,
    },
    /// `drop D K`: removes the entry.
    Remove {
        dict: Operand,
        key: Operand,
    },
    /// `setattr O n v`: sets the attribute.
    SetAttr {
        object: Operand,
        attr: u32,
        value: Operand,
    },
    /// `delattr O n`: removes the attribute.
    DelAttr {
        object: Operand,
        attr: u32,
    },
    /// `x = item L i`: binds x to item i.
    Item {
        name: u32,
        list: Operand,
        index: i64,
    },
    /// `x = get D K`: binds x to the value under the key.
    Get {
        name: u32,
        dict: Operand,
        key: Operand,
    },
    /// `x = attr O n`: binds x to the attribute.
    Attr {
        name: u32,
        object: Operand,
        attr: u32,
    },
    /// `x = deref w`: binds x to the referent, or to none.
    Deref {
        name: u32,
        weak: Operand,
    },
    /// `call f`: starts a frame of the function's procedure.
    Call {
        func: Operand,
    },
    /// `quit v`: if v is none, ends the frame, or at the top the script's commands.
    Quit {
        value: Operand,
    },
    /// `collect [g]`: a collection of generation g.
    Collect {
        generation: i64,
    },
    /// `enable`: switches automatic collections on.
    Enable,
    /// `disable`: switches automatic collections off.
    Disable,
    /// `threshold a [b [c]]`: the thresholds; an absent one keeps its value.
    Threshold {
        first: u32,
        second: Option<u32>,
        third: Option<u32>,
    },
    /// `debug` and words: sets the debug flags to the union of the words.
    Flags {
        bits: u32,
    },
    /// `freeze`: moves the generations to the permanent one.
    Freeze,
    /// `unfreeze`: moves the permanent generation to generation 2.
    Unfreeze,
    /// `print v`: prints the value.
    Print {
        value: Operand,
    },
    /// `refs v`: prints the in-degree of an object.
    Refs {
        value: Operand,
    },
    /// `tracked v`: prints whether an object is tracked.
    Tracked {
        value: Operand,
    },
    /// `finalized v`: prints whether an object's finalizer was called.
    Finalized {
        value: Operand,
    },
    /// `referents v`: prints the objects that an object refers to. (`gc.get_referents`.)
    Referents {
        value: Operand,
    },
    /// `referrers v`: prints the objects that refer to an object. (`gc.get_referrers`.)
    Referrers {
        value: Operand,
    },
    /// `why x`: prints a shortest path of holders to the value of x, ignoring x itself.
    Why {
        name: u32,
    },
    /// `count`: prints the three counts.
    Count,
    /// `gens`: prints the sizes of the generations and of the permanent one.
    Gens,
}
