//! Laws on the text of records, each the contract of a function with an empty body.
ghost use Rattle.std.specs.Prelude.{◌≡◌, List};
ghost use Rattle.std.specs.List.{All};
ghost use Rattle.cg_records.specs.Text.{text, IsWritable, IsSmall};
ghost use Rattle.cg_records.specs.declared.graph.Rec.{Rec};

/// No two lists of records share a text, so written records are read back unchanged.
pub fn one_reading()
    ensures { (a b : List Rec) → All IsWritable a → All IsSmall a → All IsWritable b → All IsSmall b
        → text a ≡ text b → a ≡ b }
{}
