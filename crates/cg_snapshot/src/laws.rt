//! A law on the text of snapshots, the contract of a function with an empty body.
ghost use Rattle.std.specs.Prelude.{◌≡◌};
ghost use Rattle.cg_snapshot.specs.Text.{text, IsWritable};
ghost use Rattle.cg_snapshot.specs.declared.reading.Snapshot.{Snapshot};

/// No two snapshots share a text.
pub fn one_reading()
    ensures { (a b : Snapshot) → IsWritable a → IsWritable b → text a ≡ text b → a ≡ b }
{}
