//! What is true of all scripts that some bytes spell.
ghost use Rattle.std.specs.Prelude.{◌≡◌, ℕ, List, false};
ghost use Rattle.cg_script.specs.declared.item.Item.{Item as AnyItem};
ghost use Rattle.cg_script.specs.declared.form.Form.{Form as AnyForm};
ghost use Rattle.cg_script.specs.Meanings.{meaning, says};
ghost use Rattle.cg_script.specs.Parts.{Known, parts_of, has_unknown};
ghost use Rattle.cg_script.specs.Commands.{said, IsSaidAgain};
ghost use Rattle.cg_script.specs.Reading.{reading, spells};
ghost use Rattle.cg_script.specs.Canonical.{canonical};

/// The canonical bytes of a script that some bytes spell are read back as the same script: the same
/// texts with the same numbers, and the same items, in the same order.
pub fn canonical_bytes_are_read_back()
    ensures { (bytes : List ℕ) (names : List (List ℕ)) (items : List AnyItem) → reading bytes
        ≡ spells names items
        → reading (canonical names items) ≡ spells names items }
{}

/// What a good line says is said again by the form and the parts that it is printed by.
pub fn printed_parts_say_the_same()
    ensures { (known : Known) (number : ℕ) (line : List ℕ) (form : AnyForm) (words : List (List ℕ))
        → says form words ≡ meaning number line
        → has_unknown (parts_of known form words) ≡ false
        → IsSaidAgain (said form (parts_of known form words)) }
{}
