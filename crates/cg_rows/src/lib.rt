//! Worked scripts: the rules of the object graph machine by example, as theorems.
//!
//! They show readers what each rule does, and they check the definitions: each script has its
//! expected text, written from the rules and not by a program.
#![tactic(auto)]

ghost use Rattle.cg_rows.specs.Worked.{EachPrints, worked_scripts};

/// A whole run of each worked script prints the text beside it.
pub fn worked_scripts_print()
    ensures { EachPrints worked_scripts }
{}
