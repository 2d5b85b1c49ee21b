//! The script of a number of blocks.
ghost use Rattle.std.specs.Prelude.{◌≡◌, ◌≤◌, ◌++◌, ◌∷◌, [], OnOk, IfOk};
ghost use Rattle.cg_script.specs.Spelled.{IsSpelled};
ghost use Rattle.cg_script.specs.Texts.{TextsAreKnown};
ghost use Rattle.cg_script.specs.declared.item.Item.TheVariants as item;
ghost use Rattle.cg_script.specs.declared.command.Command.TheVariants as command;
ghost use Rattle.cg_generator.specs.Generated.{variables, ring, tree, link, block, beginning, blocks_to, ending, generated};

use cg_script::{Command, Item, Items, Operand, Operands, Script};
use cg_value::Names;
use std::alloc::{AllocError, Global};

/// The most blocks of a script.
pub const MOST_BLOCKS: u32 = 10_000;

/// The variables, by number.
const CHAIN: u32 = 0;

const FIRST: u32 = 1;

const SECOND: u32 = 2;

/// The names of the variables.
fn variable_names(alloc: Global) -> Result<Names, AllocError>
    ensures { IfOk result (λ names. names ≡ variables) }
{
    let mut names = Names::new(alloc);
    names.intern("c")?;
    names.intern("a")?;
    names.intern("b")?;
    Ok(names)
}

fn push(items: &mut Vec<Item>, command: Command) -> Result<(), AllocError>
    ensures { OnOk result (items.new.items ≡ items.old.items ++ item.Run command ∷ []) }
{
    items.push(Item::Run(command))?;
    Ok(())
}

/// `x = list v*`
fn push_list(
    alloc: Global,
    items: &mut Vec<Item>,
    name: u32,
    members: &[Operand],
) -> Result<(), AllocError>
    ensures { OnOk result (items.new.items ≡ items.old.items
        ++ item.Run (command.MakeList name members.now) ∷ []) }
{
    let members = Operands::new(members.to_vec(alloc)?);
    push(
        items,
        Command::MakeList {
            name,
            items: members,
        },
    )
}

/// Two lists that hold each other.
fn push_ring(alloc: Global, items: &mut Vec<Item>) -> Result<(), AllocError>
    ensures { OnOk result (items.new.items ≡ items.old.items ++ ring) }
{
    push_list(alloc, items, FIRST, &[])?;
    push_list(alloc, items, SECOND, &[Operand::Name(FIRST)])?;
    push(
        items,
        Command::Append {
            list: Operand::Name(FIRST),
            value: Operand::Name(SECOND),
        },
    )?;
    push(items, Command::Del { name: FIRST })?;
    push(items, Command::Del { name: SECOND })
}

/// Three lists, one in another.
fn push_tree(alloc: Global, items: &mut Vec<Item>, number: u32) -> Result<(), AllocError>
    ensures { OnOk result (items.new.items ≡ items.old.items ++ tree number) }
{
    let both = [Operand::Name(FIRST), Operand::Name(FIRST)];
    push_list(alloc, items, FIRST, &[Operand::Int(i64::from(number))])?;
    push_list(alloc, items, FIRST, &both)?;
    push_list(alloc, items, FIRST, &both)?;
    push(items, Command::Del { name: FIRST })
}

/// One more list in the chain.
fn push_link(alloc: Global, items: &mut Vec<Item>) -> Result<(), AllocError>
    ensures { OnOk result (items.new.items ≡ items.old.items ++ link) }
{
    push_list(alloc, items, CHAIN, &[Operand::Name(CHAIN)])
}

/// The block of a number.
fn push_block(alloc: Global, items: &mut Vec<Item>, number: u32) -> Result<(), AllocError>
    ensures { OnOk result (items.new.items ≡ items.old.items ++ block number) }
{
    match number % 3 {
        1 => push_ring(alloc, items),
        2 => push_tree(alloc, items, number),
        _ => push_link(alloc, items),
    }
}

/// The blocks from 1 to this number.
fn push_blocks(alloc: Global, items: &mut Vec<Item>, last: u32) -> Result<(), AllocError>
    ensures { OnOk result (items.new.items ≡ items.old.items ++ blocks_to last) }
{
    'numbers: for before in 0..last {
        push_block(alloc, items, before + 1)?;
    }
    Ok(())
}

fn all_items(alloc: Global, blocks: u32) -> Result<Vec<Item>, AllocError>
    ensures { IfOk result (λ items. items.items ≡ beginning ++ blocks_to blocks ++ ending) }
{
    let mut items = Vec::new(alloc);
    push_list(alloc, &mut items, CHAIN, &[])?;
    push_blocks(alloc, &mut items, blocks)?;
    push(&mut items, Command::Del { name: CHAIN })?;
    push(&mut items, Command::Collect { generation: 2 })?;
    Ok(items)
}

/// The script of `blocks` blocks, at most 10,000: a list `c`; then for each number from 1 on a ring
/// of two lists, a tree of three or one link of a chain, in turn; and at the end `del c` and
/// `collect 2`. Answers `AllocError` only if memory runs out. (Ours.)
pub fn generated_script(alloc: Global, blocks: u32) -> Result<Script, AllocError>
    requires { blocks ≤ MOST_BLOCKS }
    ensures ok { IfOk result (λ script. script ≡ generated blocks) }

    // What a run of it requires.
    ensures spelled { IfOk result IsSpelled }
    ensures known { IfOk result TextsAreKnown }
{
    let names = variable_names(alloc)?;
    let items = Items::indexed(alloc, all_items(alloc, blocks)?)?;
    Ok(Script { names, items })
}
